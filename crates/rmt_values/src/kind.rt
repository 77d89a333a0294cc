/// The type of a column.
#[derive(Clone, Copy, Debug, PartialEq, Eq)]
pub enum Kind {
    /// Unsigned numbers of 64 bits.
    UInt64,
    /// Signed numbers of 64 bits.
    Int64,
    /// Strings, which are lists of at most 65,535 bytes.
    Text,
}
