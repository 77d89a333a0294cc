//! Where the replies of statements go as they come: each is written to a sink, or they are gathered.
ghost use Rattle.std.specs.Prelude.{ℕ, List as Text, ◌≡◌, ◌≢◌, ◌≤◌};
ghost use Rattle.std.specs.declared.option.Option.{Option};
ghost use Rattle.std.specs.declared.result.Result.TheVariants.{Err};
ghost use Rattle.rmt_outside.specs.Faults.{Rose};
ghost use Rattle.rmt_outside.specs.declared.write.WriteError.TheVariants.{WriteFault};
ghost use Rattle.rmt_play.specs.Outlets.{Outlet, IsTold};

use rmt_list::List;
use rmt_outside::{Sink, WriteError, write_all_of};
use rmt_reply::{Line, print};
use std::alloc::Global;

/// Where the replies of statements go as they come. At a fault only some of a reply went there; at want of memory none of it.
pub(crate) trait Teller {
    /// What is left there of lines.
    ghost outlet: { Outlet };

    /// What went there so far, where that is known.
    ghost told: { Self → Option (Text outlet.Mark) };

    /// How often telling failed. It never falls.
    ghost faults: { Self → ℕ };

    /// Tells the reply of a statement.
    fn tell(&mut self, alloc: Global, reply: List<Line>) -> Result<(), WriteError>
        ensures tells { IsTold outlet reply (told self.old) (told self.new) result }
        ensures cause { result ≡ Err WriteFault → Rose (faults self.old) (faults self.new) }
        ensures quiet { result ≢ Err WriteFault → faults self.new ≡ faults self.old }
        ensures later { faults self.old ≤ faults self.new };
}

/// Each reply is written.
impl<K: Sink> Teller for K {
    ghost use Rattle.rmt_play.specs.Outlets.{printed_there};

    ghost outlet = { printed_there };

    ghost told = { λ k. K.written k };

    ghost faults = { λ k. K.faults k };

    fn tell(&mut self, alloc: Global, reply: List<Line>) -> Result<(), WriteError> {
        let Ok(bytes) = print(alloc, reply.as_slice()) else {
            return Err(WriteError::Memory);
        };
        write_all_of(self, &bytes)
    }
}
