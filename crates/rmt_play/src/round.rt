use rmt_values::{Name, Schema};

/// How a round of statements ends: with the first CREATE that meets no refusal, or where no more is played.
#[derive(Drop)]
pub(crate) enum Round {
    /// There are no more statements; so many were refused.
    AtEnd {
        refused: u64,
    },
    /// A table is to be made, and reading goes on at `end` then; so many statements were refused before.
    Creates {
        table: Name,
        schema: Schema,
        end: usize,
        refused: u64,
    },
    /// A reply couldn't be written.
    WriteFault,
    /// Out of memory.
    Memory,
}
