use crate::kind::Kind;
use crate::name::Name;

/// A column of a table.
#[derive(Debug, Drop)]
pub struct Column {
    pub name: Name,
    pub kind: Kind,
}
