ghost use Rattle.std.specs.Prelude.{None, ◌≡◌, Ok, length};
ghost use Rattle.std.specs.Io.{WritesAtMost};
ghost use Rattle.std.specs.Io.KnownBytes.{WriteAppends};
ghost use Rattle.rmt_outside.specs.Faults.{HasCause};
ghost use Rattle.rmt_outside.specs.StreamBytes.{TakesSome};

use crate::failed::Failed;
use crate::sink::Sink;

/// A sink that never fails. It keeps no bytes, and none are known, since growth can be refused.
#[derive(Clone, Copy, Debug, PartialEq, Eq)]
pub struct SoundPage;

impl SoundPage {
    /// Makes such a sink.
    pub fn new() -> SoundPage
        ensures { result ≡ record {} }
    {
        SoundPage
    }
}

impl Sink for SoundPage {
    ghost written = { λ _. None };

    ghost faults = { λ _. 0 };

    fn write(&mut self, bytes: &[u8]) -> Result<usize, Failed>
        ensures bound { WritesAtMost result bytes.now }
        ensures some { TakesSome result bytes.now }
        ensures bytes { WriteAppends None None result bytes.now }
        ensures cause { HasCause 0 0 result }
        // It takes the whole piece, and never fails.
        ensures whole { result ≡ Ok (length bytes.now) }
    {
        Ok(bytes.len())
    }
}
