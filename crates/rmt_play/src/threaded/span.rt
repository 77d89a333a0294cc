use crate::threaded::ground::Ground;
use rmt_values::{Name, Schema};

/// How a round of statements among workers ended. No thread is left.
#[derive(Drop)]
pub(crate) enum Span {
    /// There are no more statements; so many were refused.
    AtEnd {
        refused: u64,
        ground: Ground,
    },
    /// A table is to be made, and reading goes on at `end` then; so many statements were refused before.
    Creates {
        table: Name,
        schema: Schema,
        end: usize,
        refused: u64,
        ground: Ground,
    },
    /// A reply couldn't be written.
    WriteFault,
    /// Out of memory.
    Memory,
}
