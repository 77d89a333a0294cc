use crate::threaded::ground::Ground;

/// What came of a CREATE between two rounds.
#[derive(Drop)]
pub(crate) enum Made {
    /// The table was made, and its reply written.
    On(Ground),
    /// The reply couldn't be written.
    WriteFault,
    /// Out of memory.
    Memory,
}
