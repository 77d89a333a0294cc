ghost use Rattle.std.specs.Prelude.{◌≡◌, []};
ghost use Rattle.crossbeam_queue.specs.Passes.{view, IsPassOf};
ghost use Rattle.rmt_tickets.specs.Tickets.{moves};

use crate::naming::NamesQueue;
use crate::rule::{PassMoves, RuledQueue};
use crate::ticket::Ticket;
use crossbeam_queue::Pass;
use std::marker::PhantomData;

/// A queue with no ticket yet, and its first pass.
#[derive(Drop)]
pub struct BlankQueue {
    pub(crate) ring: RuledQueue,
    pub(crate) pass: Pass<Ticket, PassMoves>,
    ghost fresh: { IsPassOf ring pass × (view pass ≡ moves 8 [] []) },
}

/// The queue that workers share.
#[derive(Drop)]
pub struct TicketQueue<N: NamesQueue> {
    pub(crate) ring: RuledQueue,
    of: PhantomData<N>,
    ghost named: { ring.table.shared.table_id ≡ N.queue },
}

impl<N: NamesQueue> TicketQueue<N> {
    // The queue of this name.
    pub(crate) fn of_ring(ring: RuledQueue) -> TicketQueue<N>
        requires { ring.table.shared.table_id ≡ N.queue }
    {
        TicketQueue {
            ring,
            of: PhantomData,
        }
    }
}
