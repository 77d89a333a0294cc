use crate::blob::Blob;

/// One value of an answer.
#[derive(Debug, Drop)]
pub enum Cell {
    UInt(u64),
    Int(i64),
    Text(Blob),
    /// A sum of numbers, which 64 bits may not hold.
    Sum(i128),
}
