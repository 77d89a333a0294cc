use crate::cursor::Cursor;
use crate::symbol_kind::SymbolKind;

/// A token of a statement.
#[derive(Clone, Copy, Debug)]
pub enum Token<'a> {
    Word(&'a [u8]),
    Number(u128),
    /// A text, by the bytes from after its opening quote on.
    Text(&'a [u8]),
    Symbol(SymbolKind),
    /// What comes after FORMAT CSV.
    Data(&'a [u8]),
    /// The end of a statement.
    Semicolon,
    /// Bytes that begin no token, or break a token's rule.
    Bad,
}

/// The token at the start of some bytes.
#[derive(Clone, Copy, Debug)]
pub struct Lexeme<'a> {
    pub token: Token<'a>,
    /// How many bytes there are from its first one on.
    pub left: usize,
    /// What comes after it.
    pub rest: Cursor<'a>,
}
