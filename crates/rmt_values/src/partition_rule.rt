/// How a table is divided: by the number in a UInt64 column, divided and rounded down, as `intDiv` does.
#[derive(Clone, Copy, Debug, PartialEq, Eq)]
pub struct PartitionRule {
    /// The place of the column, counted from 0.
    pub column: u16,
    /// The divisor, at least 1; with 1 it is the column's number itself.
    pub divisor: u64,
}
