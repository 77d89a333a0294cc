use rmt_reply::{Piece, Refusal};

/// What became of one block.
#[derive(Drop)]
pub(crate) enum Outcome {
    /// It was accepted, or is a duplicate.
    Inserted(Piece),
    /// It was refused.
    Refused(Refusal),
}
