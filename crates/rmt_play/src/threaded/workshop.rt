use crate::threaded::beside::Serves;
use rmt_outside::Gate;
use rmt_shared::Naming;
use rmt_tickets::{NamesQueue, TicketQueue, Tickets};
use rmt_workers::Crew;
use std::sync::Wait;

/// Where workers serve tickets: the tables, the queue of tickets, and a gate that each passes.
#[derive(Drop)]
pub(crate) struct Workshop<'a, N: Naming, Q: NamesQueue, R: Wait, G: Gate> {
    pub rt: &'a R,
    pub crew: &'a Crew<N>,
    pub queue: &'a TicketQueue<Q>,
    pub gate: &'a G,
}

impl<'a, N: Naming, Q: NamesQueue, R: Wait, G: Gate> Serves<Tickets<Q>>
    for Workshop<'a, N, Q, R, G> {
    fn serve(&self, place: Tickets<Q>) {
        let mut place = place;
        let _ = self.crew.serve(self.rt, self.queue, &mut place, self.gate);
    }

    fn stop(&self) {
        self.crew.stop();
    }
}
