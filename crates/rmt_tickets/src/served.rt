use crate::ticket::Ticket;

/// Why a worker ended.
#[derive(Clone, Copy, PartialEq, Eq, Debug)]
pub enum Served {
    /// It was told to stop.
    Stopped,
    /// A count is at its last value, so that it takes no more tickets.
    Ended,
    /// Memory ran out in the work of this ticket, which was put back.
    OutOfMemory(Ticket),
}
