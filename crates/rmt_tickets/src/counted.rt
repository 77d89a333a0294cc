ghost use Rattle.std.specs.Prelude.{◌≡◌, ◌≢◌, ◌<◌, ◌-◌, [], true, ℕ, MatchOption, IsTrue, IsFalse};
ghost use Rattle.crossbeam_queue.specs.Passes.{view, IsPassOf, IsSamePass};
ghost use Rattle.rmt_tickets.specs.declared.ticket.Ticket.{Ticket};
ghost use Rattle.rmt_tickets.specs.Tickets.{moves, with_put, with_taken, in_range, times, count_of, LAST, HasLast, HasRoom};

use crate::naming::NamesQueue;
use crate::queue::{BlankQueue, TicketQueue};
use crate::rule::{Cut, PassMoves, Puts, RuledQueue, Takes};
use crate::ticket::{PLACES, Ticket};
use crossbeam_queue::Pass;
use std::marker::{Model, PhantomData};
use std::sync::Wait;
use std::thread;

/// A pass of the queue, with how often it put and took each ticket. Contracts see it as its parts of
/// the right to know the whole, and as the tickets that it put and took, in order.
#[derive(Drop)]
pub struct CountedPass<N: NamesQueue> {
    pass: Pass<Ticket, PassMoves>,
    parts: u64,
    puts: [u64; PLACES],
    takes: [u64; PLACES],
    of: PhantomData<N>,
}

impl<N: NamesQueue> Model for CountedPass<N> {
    ghost use Rattle.crossbeam_queue.specs.Passes.{view as known};
    ghost use Rattle.rmt_tickets.specs.declared.rule.PassMoves.{PassMoves};
    ghost use Rattle.rmt_tickets.specs.Counted.{IsCounted};

    ghost Value = { PassMoves };

    ghost view = { λ c. known c.pass };

    ghost invariant = { λ c. IsCounted N.queue c.pass c.parts c.puts c.takes };
}

impl<N: NamesQueue> CountedPass<N> {
    // A pass that has put and taken nothing.
    pub(crate) fn new(pass: Pass<Ticket, PassMoves>, parts: u64) -> CountedPass<N>
        requires name { (pass.table_id ≡ N.queue) × (pass.me.1 ≡ []) }
        requires parts { 0 < parts }
        requires nothing { view pass ≡ moves parts [] [] }
        ensures { result ≡ moves parts [] [] }
    {
        CountedPass {
            pass,
            parts,
            puts: [0; PLACES],
            takes: [0; PLACES],
            of: PhantomData,
        }
    }

    // The pass, and the number of its parts.
    pub(crate) fn apart(self) -> (Pass<Ticket, PassMoves>, u64)
        ensures pass { (result.0.table_id ≡ N.queue) × (result.0.me.1 ≡ []) }
        ensures known { view result.0 ≡ self }
        ensures parts { (result.1 ≡ self.parts) × (0 < result.1) }
    {
        let CountedPass { pass, parts, .. } = self;
        (pass, parts)
    }

    // Cuts off a pass of one part, for another worker.
    pub(crate) fn cut(&mut self, queue: &TicketQueue<N>) -> CountedPass<N>
        requires { 1 < self.old.parts }
        ensures rest { self.new ≡ moves (self.old.parts - 1) self.old.put self.old.taken }
        ensures cut { result ≡ moves 1 [] [] }
    {
        let pass = queue.ring.another::<Cut>(&mut self.pass);
        self.parts -= 1;
        CountedPass::new(pass, 1)
    }

    // Whether a count is at its last value.
    pub(crate) fn is_full(&self) -> bool
        ensures full { IsTrue result → HasLast self.now }
        ensures room { IsFalse result → (t : Ticket) → HasRoom t self.now }
    {
        self.puts.contains(&u64::MAX) || self.takes.contains(&u64::MAX)
    }

    // Takes a ticket, if there is one.
    pub(crate) fn take(&mut self, queue: &TicketQueue<N>) -> Option<Ticket>
        requires { (t : Ticket) → HasRoom t self.old }
        ensures { MatchOption result (self.new ≡ self.old)
            (λ t. (self.new ≡ with_taken self.old t) × (in_range t ≡ true)) }
    {
        let ticket = queue.ring.try_pop_as::<Takes>(&mut self.pass)?;
        self.takes[ticket.place()] += 1;
        Some(ticket)
    }

    // Puts a ticket into the queue.
    pub(crate) fn put<R: Wait>(&mut self, rt: &R, queue: &TicketQueue<N>, ticket: Ticket)
        requires range { in_range ticket ≡ true }
        requires room { times ticket self.old.put ≢ LAST }
        ensures { self.new ≡ with_put self.old ticket }
    {
        push(rt, &queue.ring, &mut self.pass, ticket);
        self.puts[ticket.place()] += 1;
    }

    /// How often it put this ticket.
    pub fn count_put(&self, ticket: Ticket) -> u64
        ensures { result ≡ times ticket self.now.put }
    {
        counted(&self.puts, ticket)
    }

    /// How often it took this ticket.
    pub fn count_taken(&self, ticket: Ticket) -> u64
        ensures { result ≡ times ticket self.now.taken }
    {
        counted(&self.takes, ticket)
    }
}

fn counted(counts: &[u64; PLACES], ticket: Ticket) -> u64
    ensures { result ≡ count_of counts.now ticket }
{
    if !ticket.is_in_range() {
        return 0;
    }
    counts[ticket.place()]
}

// Tries until the ticket is in the queue.
fn push<R: Wait>(rt: &R, ring: &RuledQueue, pass: &mut Pass<Ticket, PassMoves>, ticket: Ticket)
    requires queue { IsPassOf ring.now pass.old }
    requires part { 0 < (view pass.old).parts }
    requires range { in_range ticket ≡ true }
    ensures queue { IsSamePass pass.old pass.new }
    ensures put { view pass.new ≡ with_put (view pass.old) ticket }
{
    for _ in rt.forever() {
        if ring.try_push_as::<Puts>(pass, ticket).is_ok() {
            return;
        }
        thread::yield_now();
    }
    unreachable!()
}
