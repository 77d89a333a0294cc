/// What comes before the next token.
#[derive(Clone, Copy, Debug, PartialEq, Eq)]
pub enum Context {
    /// Nothing that changes how it is read.
    Plain,
    /// The word FORMAT.
    Format,
    /// The words FORMAT and CSV: data follows.
    Csv,
    /// The end of a statement that the end of the bytes stands for.
    Over,
}
