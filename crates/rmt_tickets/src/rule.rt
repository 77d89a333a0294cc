//! The rule of the ticket queue: what its passes know, and what each step tells.
use crate::ticket::Ticket;
use crossbeam_queue::RuledArrayQueue;
use crossbeam_queue::protocol::{Join, Lesson, Outcome, Protocol, Split};
use std::collections::LinkedList;

/// What a pass has put and taken, and its parts of the right to know the whole. No value of it is made.
pub struct PassMoves {
    pub parts: u64,
    pub put: LinkedList<Ticket>,
    pub taken: LinkedList<Ticket>,
}

/// What was put is what was taken and what the queue holds.
pub struct Balance;

impl Protocol<Ticket, PassMoves> for Balance {
    ghost use Rattle.std.specs.Prelude.{[]};
    ghost use Rattle.rmt_tickets.specs.Tickets.{moves};
    ghost use Rattle.rmt_tickets.specs.Balance.{Balanced};

    ghost holds = { Balanced };

    ghost first = { moves 8 [] [] };
}

/// A queue under that rule.
pub type RuledQueue = RuledArrayQueue<Ticket, PassMoves, Balance>;

/// One part is cut off, or put to the others.
pub struct Cut;

impl Split<PassMoves> for Cut {
    ghost use Rattle.std.specs.Prelude.{[], ◌-◌};
    ghost use Rattle.rmt_tickets.specs.Tickets.{moves};

    ghost left = { λ v. moves (v.parts - 1) v.put v.taken };

    ghost right = { λ v. moves 1 [] [] };
}

impl Join<PassMoves> for Cut {
    ghost use Rattle.std.specs.Prelude.{[]};
    ghost use Rattle.rmt_tickets.specs.Tickets.{moves};
    ghost use Rattle.rmt_tickets.specs.Balance.{both};

    ghost both = { both };

    ghost spent = { moves 0 [] [] };
}

/// A ticket was put.
pub struct Puts;

impl Outcome<Ticket, PassMoves> for Puts {
    ghost use Rattle.std.specs.Prelude.{◌≡◌};
    ghost use Rattle.rmt_tickets.specs.Tickets.{with_put};

    ghost then = { λ v x w. w ≡ with_put v x };
}

/// A ticket was taken, or the queue was empty.
pub struct Takes;

impl Outcome<Ticket, PassMoves> for Takes {
    ghost use Rattle.std.specs.Prelude.{◌≡◌, true};
    ghost use Rattle.rmt_tickets.specs.Tickets.{with_taken, in_range};

    ghost then = { λ v x w. (w ≡ with_taken v x) × (in_range x ≡ true) };
}

impl Lesson<Ticket, PassMoves> for Takes {
    ghost use Rattle.rmt_tickets.specs.Balance.{IsWhole};

    ghost fact = { IsWhole };
}
