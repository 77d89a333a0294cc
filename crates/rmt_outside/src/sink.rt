ghost use Rattle.std.specs.Prelude.{ℕ, List};
ghost use Rattle.std.specs.declared.option.Option.{Option};
ghost use Rattle.std.specs.Io.{WritesAtMost};
ghost use Rattle.std.specs.Io.KnownBytes.{WriteAppends};
ghost use Rattle.rmt_outside.specs.Faults.{HasCause};
ghost use Rattle.rmt_outside.specs.StreamBytes.{TakesSome};

use crate::failed::Failed;

/// Where bytes go to.
pub trait Sink {
    /// The bytes written so far, where they are known.
    ghost written: { Self → Option (List ℕ) };

    /// How often a write failed. It never falls.
    ghost faults: { Self → ℕ };

    /// Takes the first bytes of a piece, and answers how many: at least one, where the piece isn't empty.
    /// At `Failed` nothing was taken.
    fn write(&mut self, bytes: &[u8]) -> Result<usize, Failed>
        ensures bound { WritesAtMost result bytes.now }
        ensures some { TakesSome result bytes.now }
        ensures bytes { WriteAppends (written self.old) (written self.new) result bytes.now }
        ensures cause { HasCause (faults self.old) (faults self.new) result };
}
