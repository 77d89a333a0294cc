use crate::crew::Crew;
use rmt_outside::Gate;
use rmt_shared::Naming;
use rmt_tickets::{Ticket, Work};
use std::alloc::AllocError;
use std::sync::Wait;

/// What a worker does for a ticket: what comes next at the replica of the table that it names.
#[derive(Drop)]
pub(crate) struct Worker<'a, N: Naming, R: Wait, G: Gate> {
    pub rt: &'a R,
    pub crew: &'a Crew<N>,
    pub gate: &'a G,
}

impl<N: Naming, R: Wait, G: Gate> Work for Worker<'_, N, R, G> {
    ghost use Rattle.std.specs.Prelude.{⊤};

    ghost answered = { λ w t r. ⊤ };

    fn run(&self, ticket: Ticket) -> Result<(), AllocError> {
        let table = usize::from(ticket.table());
        let Some(replica) = ticket.replica().checked_add(1) else {
            return Ok(());
        };
        self.crew.work(self.rt, table, replica, self.gate)
    }
}
