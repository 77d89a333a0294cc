ghost use Rattle.std.specs.Prelude.{Some, ◌≡◌, Ok, length, min};
ghost use Rattle.std.specs.Io.{ReadsAtMost};
ghost use Rattle.std.specs.Io.KnownBytes.{ReadConsumes};
ghost use Rattle.rmt_outside.specs.Faults.{HasCause};

use crate::failed::Failed;
use crate::source::Source;
use std::marker::Model;

/// A source of bytes in memory that never fails.
#[derive(Drop)]
pub struct SoundBytes {
    bytes: Vec<u8>,
    /// How many of the bytes were taken.
    at: usize,
}

impl Model for SoundBytes {
    ghost use Rattle.std.specs.Prelude.{◌≤◌, ℕ, List, drop, vec_len};

    ghost Value = { List ℕ };

    ghost view = { λ b. drop b.at b.bytes.items };

    ghost invariant = { λ b. b.at ≤ vec_len b.bytes };
}

impl SoundBytes {
    /// Makes a source of these bytes.
    pub fn new(bytes: Vec<u8>) -> SoundBytes
        ensures { result ≡ bytes.items }
    {
        SoundBytes { bytes, at: 0 }
    }
}

impl Source for SoundBytes {
    ghost left = { λ b. Some b };

    ghost faults = { λ _. 0 };

    fn read(&mut self, buffer: &mut [u8]) -> Result<usize, Failed>
        ensures bound { ReadsAtMost result buffer.new }
        ensures bytes { ReadConsumes (Some self.old) (Some self.new) result buffer.new }
        ensures cause { HasCause 0 0 result }
        // As much is given as there is and as has room. It never fails.
        ensures most { result ≡ Ok (min (length buffer.old) (length self.old)) }
    {
        let (_, rest) = self.bytes.split_at(self.at);
        let count = buffer.len().min(rest.len());
        let (piece, _) = rest.split_at(count);
        buffer[..count].copy_from_slice(piece);
        self.at += count;
        Ok(count)
    }
}
