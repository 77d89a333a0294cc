use crate::applied::Applied;
use crate::step_refused::StepRefused;

/// The reply to an event. A cluster stores it beside the event.
#[derive(Clone, Copy, PartialEq, Eq)]
pub enum Reply {
    /// The number of the attempt, and that of its block.
    Attempt { attempt: u32, number: u32 },
    /// The place of the entry that was appended.
    Entry(u32),
    /// What the entry came to.
    Applied(Applied),
    /// The length of the copy once it was pulled.
    Pulled(u32),
    /// Whether the replica is noted for the part that waits for its quorum.
    Noted(bool),
    /// It was done.
    Done,
    /// It was refused.
    Refused(StepRefused),
}
