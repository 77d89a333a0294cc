ghost use Rattle.std.specs.Prelude.{Some, ◌≡◌, ◌↔◌, length, min, IsErr, IfOk, Contains};
ghost use Rattle.std.specs.Io.{ReadsAtMost};
ghost use Rattle.std.specs.Io.KnownBytes.{ReadConsumes};
ghost use Rattle.rmt_outside.specs.Faults.{one_more, HasCause, CountsOne};

use crate::failed::Failed;
use crate::sound_bytes::SoundBytes;
use crate::source::Source;
use std::marker::Model;

/// A source of bytes in memory, of which chosen calls fail.
#[derive(Drop)]
pub struct Bytes {
    bytes: SoundBytes,
    failing: Vec<u64>,
    calls: u64,
    faults: u64,
}

impl Model for Bytes {
    ghost use Rattle.rmt_outside.specs.StreamViews.{Feed};

    ghost Value = { Feed };

    ghost view = { λ b. record { left = b.bytes; failing = b.failing.items; calls = b.calls; faults = b.faults } };
}

impl Bytes {
    /// Makes a source of these bytes. The calls of `read` that are listed, counted from 0, fail.
    pub fn new(bytes: Vec<u8>, failing: Vec<u64>) -> Bytes
        ensures { result ≡ record { left = bytes.items; failing = failing.items; calls = 0; faults = 0 } }
    {
        Bytes {
            bytes: SoundBytes::new(bytes),
            failing,
            calls: 0,
            faults: 0,
        }
    }
}

impl Source for Bytes {
    ghost left = { λ b. Some b.left };

    ghost faults = { λ b. b.faults };

    fn read(&mut self, buffer: &mut [u8]) -> Result<usize, Failed>
        ensures bound { ReadsAtMost result buffer.new }
        ensures bytes { ReadConsumes (Some self.old.left) (Some self.new.left) result buffer.new }
        ensures cause { HasCause self.old.faults self.new.faults result }
        ensures count { CountsOne self.old.faults self.new.faults result }
        ensures fails { IsErr result ↔ Contains self.old.failing self.old.calls }
        ensures calls { self.new.calls ≡ one_more self.old.calls }
        ensures failing { self.new.failing ≡ self.old.failing }
        // As much is given as there is and as has room.
        ensures most { IfOk result (λ n. n ≡ min (length buffer.old) (length self.old.left)) }
    {
        let call = self.calls;
        self.calls = self.calls.saturating_add(1);
        if self.failing.contains(&call) {
            self.faults = self.faults.saturating_add(1);
            return Err(Failed);
        }
        self.bytes.read(buffer)
    }
}
