ghost use Rattle.std.specs.Prelude.{◌≡◌, true};
ghost use Rattle.rmt_tickets.specs.Tickets.{in_range};

use crate::ticket::Ticket;
use std::alloc::AllocError;

/// What workers do for a ticket. It may wait, where its `impl` has a parameter that may.
pub trait Work {
    ghost use Rattle.std.specs.Prelude.{Result, ⊤};
    ghost use Rattle.std.specs.declared.alloc.AllocError.{AllocError};
    ghost use Rattle.rmt_tickets.specs.declared.ticket.Ticket.{Ticket};

    /// What is known once it answered so for a ticket.
    ghost answered: { Self → Ticket → Result (⊤) AllocError → Type 0 };

    /// Does the work of one ticket. At an error no memory was left.
    fn run(&self, ticket: Ticket) -> Result<(), AllocError>
        requires { in_range ticket ≡ true }
        ensures { answered self.now ticket result };
}
