//! How a queue is made, and how it gets its name.
ghost use Rattle.std.specs.Prelude.{◌≡◌, [], IfOk};
ghost use Rattle.rmt_tickets.specs.Tickets.{moves};
ghost use Rattle.rmt_tickets.specs.Blank.{name_of, room_of};

use crate::counted::CountedPass;
use crate::naming::NamesQueue;
use crate::queue::{BlankQueue, TicketQueue};
use crate::rule::RuledQueue;
use crate::ticket::PLACES;
use std::alloc::{AllocError, Global};

impl BlankQueue {
    /// Makes a queue with room for a ticket of each table and replica.
    pub fn new(alloc: Global) -> Result<BlankQueue, AllocError>
        ensures room { IfOk result (λ blank. room_of blank ≡ 32) }
    {
        let (ring, pass) = RuledQueue::ruled(alloc, PLACES)?;
        Ok(BlankQueue { ring, pass })
    }
}

impl<N: NamesQueue> TicketQueue<N> {
    /// The queue under its name, and the first pass.
    pub fn open(blank: BlankQueue) -> (TicketQueue<N>, CountedPass<N>)
        requires { name_of blank ≡ N.queue }
        ensures { result.1 ≡ moves 8 [] [] }
    {
        let BlankQueue { ring, pass } = blank;
        (TicketQueue::of_ring(ring), CountedPass::new(pass, 8))
    }
}
