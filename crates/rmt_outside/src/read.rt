ghost use Rattle.std.specs.Prelude.{◌≡◌, ◌≤◌, ◌+◌, length, IfOk, OnOk, IsErrOf};
ghost use Rattle.std.specs.Io.KnownBytes.{Consumes, IsAtEnd};
ghost use Rattle.rmt_outside.specs.declared.read.ReadError.TheVariants.{ReadFault, Memory};
ghost use Rattle.rmt_outside.specs.Faults.{Rose};
ghost use Rattle.rmt_outside.specs.StreamBytes.{ConsumesUpTo, ConsumesExactly};

use crate::failed::Failed;
use crate::source::Source;
use std::alloc::{AllocError, Global};

/// The most bytes that one call reads.
const PIECE: usize = 4096;

/// Why a source wasn't read to its end.
#[derive(Clone, Copy, Debug, PartialEq, Eq)]
pub enum ReadError {
    /// A read failed.
    ReadFault,
    /// The source gives more bytes than the limit.
    TooLong,
    /// Out of memory.
    Memory,
}

impl From<Failed> for ReadError {
    ghost from_gives = { λ _ e. e ≡ ReadFault };

    fn from(_: Failed) -> Self {
        ReadError::ReadFault
    }
}

impl From<AllocError> for ReadError {
    ghost from_gives = { λ _ e. e ≡ Memory };

    fn from(_: AllocError) -> Self {
        ReadError::Memory
    }
}

/// Reads a source to its end, and answers all its bytes: at most `limit`. After an error the source has lost the
/// bytes that were read up to then.
pub fn read_all<S: Source>(
    alloc: Global,
    source: &mut S,
    limit: usize,
) -> Result<Vec<u8>, ReadError>
    ensures all { IfOk result (λ all. Consumes (S.left source.old) (S.left source.new) all.items) }
    ensures end { OnOk result (IsAtEnd (S.left source.new)) }
    ensures within { IfOk result (λ all. length all.items ≤ limit) }
    // One byte past the limit was taken.
    ensures too_long { IsErrOf result ReadError.TooLong
        → ConsumesExactly (S.left source.old) (S.left source.new) (limit + 1) }
    // At most the limit's bytes were taken before the read that failed.
    ensures fault { IsErrOf result ReadError.ReadFault
        → ConsumesUpTo (S.left source.old) (S.left source.new) limit }
    ensures cause { IsErrOf result ReadError.ReadFault → Rose (S.faults source.old) (S.faults source.new) }
    ensures later { S.faults source.old ≤ S.faults source.new }
    // No other answer hides a fault.
    ensures quiet { ¬ IsErrOf result ReadError.ReadFault → S.faults source.new ≡ S.faults source.old }
    ensures memory { IsErrOf result ReadError.Memory
        → ConsumesUpTo (S.left source.old) (S.left source.new) limit }
{
    let mut all = Vec::new(alloc);
    let mut buffer = [0u8; PIECE];
    'pieces: loop {
        let room = limit - all.len();
        let wanted = if room < PIECE { room + 1 } else { PIECE };
        let count = source.read(&mut buffer[..wanted])?;
        if count == 0 {
            return Ok(all);
        }
        if count > room {
            return Err(ReadError::TooLong);
        }
        all.extend_from_slice(&buffer[..count])?;
    }
}
