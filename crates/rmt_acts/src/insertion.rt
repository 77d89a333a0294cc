use rmt_list::List;
use rmt_reply::{Piece, Refusal};

/// What became of the blocks of an INSERT: a piece for each one that went in, in their order, and why the next one didn't.
#[derive(Drop)]
pub struct Insertion {
    pub pieces: List<Piece>,
    pub refused: Option<Refusal>,
}
