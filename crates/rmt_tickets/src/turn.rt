use crate::ticket::Ticket;

/// What became of a worker's turn.
#[derive(Clone, Copy, PartialEq, Eq, Debug)]
pub enum Turn {
    /// A count is at its last value, so that this worker takes no more tickets.
    Ended,
    /// No ticket was to be had.
    Idle,
    /// The work of this ticket was done, and it was put back.
    Worked(Ticket),
    /// Memory ran out in the work of this ticket, and it was put back.
    OutOfMemory(Ticket),
}
