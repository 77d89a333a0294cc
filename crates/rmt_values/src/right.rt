use crate::literal::Literal;
use crate::name::Name;

/// What an UPDATE sets a column to, as a statement writes it.
#[derive(Debug, Drop)]
pub enum Right {
    Literal(Literal),
    Column(Name),
    Plus { column: Name, by: Literal },
    Minus { column: Name, by: Literal },
}
