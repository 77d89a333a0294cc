ghost use Rattle.std.specs.Prelude.{◌≡◌};
ghost use Rattle.std.specs.Io.{WritesAtMost};
ghost use Rattle.std.specs.Io.KnownBytes.{WriteAppends};
ghost use Rattle.rmt_outside.specs.Faults.{HasCause, CountsOne};
ghost use Rattle.rmt_outside.specs.StreamBytes.{TakesSome};

use crate::failed::Failed;
use crate::sink::Sink;
use std::io::Write;
use std::marker::Model;

/// A sink over a writer of std. Its faults are the writer's errors, an interrupted call included, and the calls
/// that took nothing of a piece that isn't empty. Its bytes are known where the writer's are: over a file or a
/// terminal they aren't.
#[derive(Drop)]
pub struct StdSink<W: Write + Drop> {
    inner: W,
    faults: u64,
}

impl<W: Write + Drop> Model for StdSink<W> {
    ghost use Rattle.rmt_outside.specs.StreamViews.{Outlet};

    ghost Value = { Outlet };

    ghost view = { λ s. record { written = W.contents s.inner; faults = s.faults } };
}

impl<W: Write + Drop> StdSink<W> {
    /// Makes a sink of a writer, without faults so far.
    pub fn new(inner: W) -> Self
        ensures { result ≡ record { written = W.contents inner; faults = 0 } }
    {
        StdSink { inner, faults: 0 }
    }
}

impl<W: Write + Drop> Sink for StdSink<W> {
    ghost written = { λ s. s.written };

    ghost faults = { λ s. s.faults };

    fn write(&mut self, bytes: &[u8]) -> Result<usize, Failed>
        ensures bound { WritesAtMost result bytes.now }
        ensures some { TakesSome result bytes.now }
        ensures bytes { WriteAppends self.old.written self.new.written result bytes.now }
        ensures cause { HasCause self.old.faults self.new.faults result }
        ensures count { CountsOne self.old.faults self.new.faults result }
    {
        match self.inner.write(bytes) {
            Ok(count) if count > 0 || bytes.is_empty() => Ok(count),
            _ => {
                self.faults = self.faults.saturating_add(1);
                Err(Failed)
            }
        }
    }
}
