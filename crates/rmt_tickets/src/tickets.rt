ghost use Rattle.std.specs.Prelude.{◌≡◌, ◌<◌, []};
ghost use Rattle.crossbeam_queue.specs.Passes.{view};
ghost use Rattle.rmt_tickets.specs.declared.turn.Turn.TheVariants.{Ended};
ghost use Rattle.rmt_tickets.specs.Tickets.{place, dealt, times, IsEven, HasLast, turned, Answered, Serves};

use crate::counted::CountedPass;
use crate::naming::NamesQueue;
use crate::queue::TicketQueue;
use crate::rule::PassMoves;
use crate::served::Served;
use crate::ticket::Ticket;
use crate::turn::Turn;
use crate::work::Work;
use crossbeam_queue::Pass;
use std::marker::Model;
use std::sync::Wait;
use std::sync::atomic::{AtomicBool, Ordering};
use std::thread;

/// A worker's place at the ticket queue: what it has put and taken so far. Between two turns it has
/// put back each ticket that it took.
#[derive(Drop)]
pub struct Tickets<N: NamesQueue> {
    counted: CountedPass<N>,
    tables: u8,
    replicas: u8,
}

impl<N: NamesQueue> Model for Tickets<N> {
    ghost use Rattle.rmt_tickets.specs.Tickets.{Place, place, dealt, IsEven};

    ghost Value = { Place };

    ghost view = { λ t. place t.counted (dealt t.tables t.replicas) };

    ghost invariant = { λ t. IsEven t.counted (dealt t.tables t.replicas) };
}

impl<N: NamesQueue> Tickets<N> {
    // The place of a pass that has put the tickets of so many tables and replicas.
    pub(crate) fn new(counted: CountedPass<N>, tables: u8, replicas: u8) -> Tickets<N>
        requires put { counted.put ≡ dealt tables replicas }
        requires taken { counted.taken ≡ [] }
        ensures { result ≡ place counted (dealt tables replicas) }
    {
        Tickets {
            counted,
            tables,
            replicas,
        }
    }

    // The pass, and the number of its parts.
    pub(crate) fn apart(self) -> (Pass<Ticket, PassMoves>, u64)
        ensures pass { (result.0.table_id ≡ N.queue) × (result.0.me.1 ≡ []) }
        ensures known { view result.0 ≡ self.moves }
        ensures parts { (result.1 ≡ self.moves.parts) × (0 < result.1) }
        ensures even { IsEven self.moves self.begun }
    {
        let Tickets { counted, .. } = self;
        counted.apart()
    }

    /// How often it put this ticket.
    pub fn put(&self, ticket: Ticket) -> u64
        ensures { result ≡ times ticket self.now.moves.put }
    {
        self.counted.count_put(ticket)
    }

    /// How often it took this ticket.
    pub fn taken(&self, ticket: Ticket) -> u64
        ensures { result ≡ times ticket self.now.moves.taken }
    {
        self.counted.count_taken(ticket)
    }

    /// Takes a ticket, does its work and puts it back. The ticket is put back where memory ran out, too.
    pub fn turn<W: Work, R: Wait>(&mut self, rt: &R, queue: &TicketQueue<N>, work: &W) -> Turn
        ensures turned { self.new ≡ turned self.old result }
        ensures answered { Answered (W.answered work.now) result }
        ensures ended { result ≡ Ended → HasLast self.old.moves }
    {
        if self.counted.is_full() {
            return Turn::Ended;
        }
        let Some(ticket) = self.counted.take(queue) else {
            return Turn::Idle;
        };
        let answer = work.run(ticket);
        self.counted.put(rt, queue, ticket);
        match answer {
            Ok(()) => Turn::Worked(ticket),
            Err(_) => Turn::OutOfMemory(ticket),
        }
    }

    /// Works until `stop` is set, memory runs out in the work, or a count is at its last value, and tells which it was.
    pub fn serve<W: Work, R: Wait>(
        &mut self,
        rt: &R,
        queue: &TicketQueue<N>,
        stop: &AtomicBool,
        work: &W,
    ) -> Served
        ensures { Serves (W.answered work.now) self.old result self.new }
    {
        'turns: for _ in rt.forever() {
            if stop.load(Ordering::SeqCst) {
                return Served::Stopped;
            }
            match self.turn(rt, queue, work) {
                Turn::Worked(_) => {}
                Turn::Idle => thread::yield_now(),
                Turn::Ended => return Served::Ended,
                Turn::OutOfMemory(ticket) => return Served::OutOfMemory(ticket),
            }
        }
        unreachable!()
    }
}
