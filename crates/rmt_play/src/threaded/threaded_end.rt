use rmt_list::List;
use rmt_state::State;

/// How a script among workers came to its end.
#[derive(Drop)]
pub(crate) enum ThreadedEnd {
    /// All of it was played, with so many statements refused; these are its tables, at rest.
    Whole { refused: u64, states: List<State> },
    /// A reply couldn't be written.
    WriteFault,
    /// Out of memory.
    Memory,
}
