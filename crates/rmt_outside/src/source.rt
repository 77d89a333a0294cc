ghost use Rattle.std.specs.Prelude.{ℕ, List};
ghost use Rattle.std.specs.declared.option.Option.{Option};
ghost use Rattle.std.specs.Io.{ReadsAtMost};
ghost use Rattle.std.specs.Io.KnownBytes.{ReadConsumes};
ghost use Rattle.rmt_outside.specs.Faults.{HasCause};

use crate::failed::Failed;

/// Where bytes come from.
pub trait Source {
    /// The bytes still to come, where they are known.
    ghost left: { Self → Option (List ℕ) };

    /// How often a read failed. It never falls.
    ghost faults: { Self → ℕ };

    /// Puts the next bytes into the first places of the buffer, and answers how many. 0 for a buffer that isn't empty
    /// comes only at the end. At `Failed` nothing was taken; the next read goes on where this one would have begun.
    fn read(&mut self, buffer: &mut [u8]) -> Result<usize, Failed>
        ensures bound { ReadsAtMost result buffer.new }
        ensures bytes { ReadConsumes (left self.old) (left self.new) result buffer.new }
        ensures cause { HasCause (faults self.old) (faults self.new) result };
}
