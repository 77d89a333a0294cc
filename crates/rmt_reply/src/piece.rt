use rmt_names::PartName;

/// What became of one block of an INSERT.
#[derive(Debug, Drop)]
pub enum Piece {
    /// It was written as this part.
    Part(PartName),
    /// It repeats the block of this part, and nothing was written.
    Duplicate(PartName),
}
