use rmt_values::{Name, Schema};

/// How far the playing of a script came with its next statement.
#[derive(Drop)]
pub(crate) enum Progress {
    /// There is none.
    AtEnd,
    /// Its reply was written, of which so many lines tell of a refusal, and reading goes on at `end`.
    On {
        end: usize,
        refused: u64,
    },
    /// It is a CREATE whose table is still to be made; reading goes on at `end` then.
    Creates {
        table: Name,
        schema: Schema,
        end: usize,
    },
    /// Its reply couldn't be written.
    WriteFault,
    /// Out of memory.
    Memory,
}
