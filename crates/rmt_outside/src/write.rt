ghost use Rattle.std.specs.Prelude.{◌≡◌, ◌≤◌, OnOk, OnErr, IsErrOf};
ghost use Rattle.std.specs.Io.KnownBytes.{Appends};
ghost use Rattle.rmt_outside.specs.declared.write.WriteError.TheVariants.{WriteFault};
ghost use Rattle.rmt_outside.specs.Faults.{Rose};
ghost use Rattle.rmt_outside.specs.StreamBytes.{AppendsPrefix};

use crate::failed::Failed;
use crate::sink::Sink;

/// Why bytes weren't all written.
#[derive(Clone, Copy, Debug, PartialEq, Eq)]
pub enum WriteError {
    /// A write failed.
    WriteFault,
    /// Out of memory. It never comes: writing takes none.
    Memory,
}

impl From<Failed> for WriteError {
    ghost from_gives = { λ _ e. e ≡ WriteFault };

    fn from(_: Failed) -> Self {
        WriteError::WriteFault
    }
}

/// Writes all of the bytes. At an error the sink has got a prefix of them.
pub fn write_all_of<K: Sink>(sink: &mut K, bytes: &[u8]) -> Result<(), WriteError>
    ensures all { OnOk result (Appends (K.written sink.old) (K.written sink.new) bytes.now) }
    ensures prefix { OnErr result (AppendsPrefix (K.written sink.old) (K.written sink.new) bytes.now) }
    ensures cause { OnErr result (Rose (K.faults sink.old) (K.faults sink.new)) }
    ensures later { K.faults sink.old ≤ K.faults sink.new }
    ensures quiet { OnOk result (K.faults sink.new ≡ K.faults sink.old) }
    ensures no_memory { ¬ IsErrOf result WriteError.Memory }
{
    let mut rest = bytes;
    'pieces: while !rest.is_empty() {
        let count = sink.write(rest)?;
        let (_, after) = rest.split_at(count);
        rest = after;
    }
    Ok(())
}
