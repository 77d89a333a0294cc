ghost use Rattle.std.specs.Prelude.{Some, ◌≡◌, [], IsErr, length, IfOk, Contains};
ghost use Rattle.std.specs.Io.{WritesAtMost};
ghost use Rattle.std.specs.Io.KnownBytes.{WriteAppends};
ghost use Rattle.rmt_outside.specs.Faults.{one_more, HasCause, CountsOne};
ghost use Rattle.rmt_outside.specs.StreamBytes.{TakesSome};

use crate::failed::Failed;
use crate::sink::Sink;
use std::alloc::Global;
use std::marker::Model;

/// A sink in memory, of which chosen calls fail. A call for whose bytes no memory is left fails too.
#[derive(Drop)]
pub struct Page {
    written: Vec<u8>,
    failing: Vec<u64>,
    calls: u64,
    faults: u64,
}

impl Model for Page {
    ghost use Rattle.rmt_outside.specs.StreamViews.{Sheet};

    ghost Value = { Sheet };

    ghost view = { λ p. record {
      written = p.written.items;
      failing = p.failing.items;
      calls = p.calls;
      faults = p.faults;
    } };
}

impl Page {
    /// Makes an empty page. The calls of `write` that are listed, counted from 0, fail.
    pub fn new(alloc: Global, failing: Vec<u64>) -> Page
        ensures { result ≡ record { written = []; failing = failing.items; calls = 0; faults = 0 } }
    {
        Page {
            written: Vec::new(alloc),
            failing,
            calls: 0,
            faults: 0,
        }
    }

    /// The bytes written so far.
    pub fn written(&self) -> &[u8]
        ensures { result.now ≡ self.now.written }
    {
        &self.written
    }
}

impl Sink for Page {
    ghost written = { λ p. Some p.written };

    ghost faults = { λ p. p.faults };

    fn write(&mut self, bytes: &[u8]) -> Result<usize, Failed>
        ensures bound { WritesAtMost result bytes.now }
        ensures some { TakesSome result bytes.now }
        ensures bytes { WriteAppends (Some self.old.written) (Some self.new.written) result bytes.now }
        ensures cause { HasCause self.old.faults self.new.faults result }
        ensures count { CountsOne self.old.faults self.new.faults result }
        // A call fails where it is listed, or where no memory is left.
        ensures fails { Contains self.old.failing self.old.calls → IsErr result }
        ensures calls { self.new.calls ≡ one_more self.old.calls }
        ensures failing { self.new.failing ≡ self.old.failing }
        ensures whole { IfOk result (λ n. n ≡ length bytes.now) }
    {
        let call = self.calls;
        self.calls = self.calls.saturating_add(1);
        if self.failing.contains(&call) || self.written.extend_from_slice(bytes).is_err() {
            self.faults = self.faults.saturating_add(1);
            return Err(Failed);
        }
        Ok(bytes.len())
    }
}
