/// A token that is always spelled the same, or in two ways.
#[derive(Clone, Copy, Debug, PartialEq, Eq)]
pub enum SymbolKind {
    Open,
    Close,
    Comma,
    Equal,
    At,
    Plus,
    Minus,
    Star,
    /// `!=` or `<>`.
    Differs,
    Less,
    AtMost,
    Greater,
    AtLeast,
}
