ghost use Rattle.std.specs.Prelude.{◌≡◌, ◌≢◌, ◌+◌, [], Err, IfOk, IfSome, IsSome};
ghost use Rattle.crossbeam_queue.specs.Passes.{view, IsPassOf};
ghost use Rattle.rmt_tickets.specs.declared.ticket.Ticket.{Ticket};
ghost use Rattle.rmt_tickets.specs.declared.settle_error.SettleError.TheVariants.{Missing};
ghost use Rattle.rmt_tickets.specs.Tickets.{times, all_put, all_taken, all_begun, all_parts};
ghost use Rattle.rmt_tickets.specs.Gathers.{Gathers};

use crate::naming::NamesQueue;
use crate::queue::TicketQueue;
use crate::rule::{Cut, PassMoves, RuledQueue, Takes};
use crate::settle_error::SettleError;
use crate::ticket::Ticket;
use crate::tickets::Tickets;
use crossbeam_queue::Pass;
use std::alloc::{AllocError, Global};
use std::sync::Wait;

impl<N: NamesQueue> TicketQueue<N> {
    /// Ends the queue once all threads are joined, and returns the tickets that are left in it. It takes
    /// all places that `deal` gave.
    pub fn settle<R: Wait>(
        self,
        rt: &R,
        alloc: Global,
        places: Vec<Tickets<N>>,
    ) -> Result<Vec<Ticket>, SettleError>
        // Each ticket that was put was taken or is left, as often as it was put.
        ensures settled { IfOk result (λ left. (t : Ticket) →
            all_put t places.items ≡ all_taken t places.items + times t left.items) }

        // What is left is what was put before the first turns: no turn lost a ticket or put one twice.
        ensures begun { IfOk result (λ left. (t : Ticket) →
            times t left.items ≡ all_begun t places.items) }
        ensures missing { all_parts places.items ≡ 8 → result ≢ Err Missing }
    {
        let Some(pass) = gather(&self, places) else {
            return Err(SettleError::Missing);
        };
        match drain(rt, &self.ring, alloc, pass) {
            Ok(left) => Ok(left),
            Err(_) => Err(SettleError::OutOfMemory),
        }
    }
}

// The pass that has every part, if these are all places.
fn gather<N: NamesQueue>(
    queue: &TicketQueue<N>,
    places: Vec<Tickets<N>>,
) -> Option<Pass<Ticket, PassMoves>>
    ensures pass { IfSome result (λ p. IsPassOf queue.now.ring p × ((view p).parts ≡ 8)) }
    ensures gathers { IfSome result (λ p. Gathers places.items [] (view p)) }
    ensures all { all_parts places.items ≡ 8 → IsSome result }
{
    let mut places = places;
    let (mut pass, mut parts) = places.pop()?.apart();
    while let Some(place) = places.pop() {
        let (other, more) = place.apart();
        parts = parts.checked_add(more)?;
        queue.ring.absorb::<Cut>(&mut pass, other);
    }
    if parts == 8 { Some(pass) } else { None }
}

// Takes what is left in the queue.
fn drain<R: Wait>(
    rt: &R,
    ring: &RuledQueue,
    alloc: Global,
    pass: Pass<Ticket, PassMoves>,
) -> Result<Vec<Ticket>, AllocError>
    requires pass { IsPassOf ring.now pass }
    requires all { (view pass).parts ≡ 8 }
    ensures { IfOk result (λ left. (t : Ticket) →
        times t (view pass).put ≡ times t (view pass).taken + times t left.items) }
{
    let mut pass = pass;
    let mut left = Vec::new(alloc);
    for _ in rt.forever() {
        left.reserve(1)?;
        match ring.pop_as::<Takes, R>(rt, &mut pass) {
            Some(ticket) => left.push_reserved(ticket),
            None => return Ok(left),
        }
    }
    unreachable!()
}
