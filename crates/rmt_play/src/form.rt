use crate::task::Task;

/// What the words of a command ask for.
#[derive(Clone, Copy, Debug, PartialEq, Eq)]
pub(crate) struct Form {
    pub task: Task,
    /// The number of workers, 1 to 8; `None` for one statement after the other with nobody beside it.
    pub workers: Option<u8>,
}
