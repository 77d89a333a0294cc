//! Scripts whose replies are written: each before the next statement begins, or a summary of them all at the end.
ghost use Rattle.std.specs.Prelude.{◌≡◌, ◌≢◌, ◌≤◌, ◌<◌};
ghost use Rattle.std.specs.declared.result.Result.TheVariants.{Err};
ghost use Rattle.rmt_outside.specs.Faults.{Rose};
ghost use Rattle.rmt_outside.specs.declared.write.WriteError.TheVariants.{WriteFault};
ghost use Rattle.rmt_play.specs.ScriptEnds.{IsWrittenEnd, WritesSummary};
ghost use Rattle.rmt_play.specs.ThreadedRounds.{IsWrittenAmong};
ghost use Rattle.rmt_play.specs.declared.printing.Printing.TheVariants.{Summary};
ghost use Rattle.rmt_play.specs.declared.script_end.ScriptEnd.TheVariants as ends;
ghost use Rattle.rmt_play.specs.declared.threaded.threaded_end.ThreadedEnd.TheVariants as among;

use crate::gatherer::Gatherer;
use crate::printing::Printing;
use crate::script::play;
use crate::script_end::ScriptEnd;
use crate::threaded;
use crate::threaded::ThreadedEnd;
use rmt_outside::{Gate, Sink, WriteError, write_all_of};
use rmt_reply::{Line, summary};
use std::alloc::Global;
use std::sync::Wait;
use std::thread::Threads;

/// Writes the summary of replies.
fn write_summary<K: Sink>(alloc: Global, lines: &[Line], sink: &mut K) -> Result<(), WriteError>
    ensures writes { WritesSummary lines.now (K.written sink.old) (K.written sink.new) result }
    ensures cause { result ≡ Err WriteFault → Rose (K.faults sink.old) (K.faults sink.new) }
    ensures quiet { result ≢ Err WriteFault → K.faults sink.new ≡ K.faults sink.old }
    ensures later { K.faults sink.old ≤ K.faults sink.new }
{
    let Ok(text) = summary(alloc, lines) else {
        return Err(WriteError::Memory);
    };
    write_all_of(sink, &text)
}

/// Plays a script, and writes the summary of its replies at the end.
fn sum_up<K: Sink>(alloc: Global, script: &[u8], sink: &mut K) -> ScriptEnd
    ensures end { IsWrittenEnd Summary script.now (K.written sink.old) (K.written sink.new) result }
    ensures cause { result ≡ ends.WriteFault → Rose (K.faults sink.old) (K.faults sink.new) }
    ensures quiet { result ≢ ends.WriteFault → K.faults sink.new ≡ K.faults sink.old }
    ensures later { K.faults sink.old ≤ K.faults sink.new }
{
    let lines = Vec::new(alloc);
    let mut gatherer = Gatherer { lines };
    match play(alloc, script, &mut gatherer) {
        ScriptEnd::Whole { refused, clusters } => {
            match write_summary(alloc, &gatherer.lines, sink) {
                Ok(()) => ScriptEnd::Whole { refused, clusters },
                Err(WriteError::WriteFault) => ScriptEnd::WriteFault,
                Err(WriteError::Memory) => ScriptEnd::Memory,
            }
        }
        ScriptEnd::Memory => ScriptEnd::Memory,
        ScriptEnd::WriteFault => unreachable!(),
    }
}

/// Plays a script to its end, and writes its replies.
pub(crate) fn play_alone<K: Sink>(
    alloc: Global,
    script: &[u8],
    printing: Printing,
    sink: &mut K,
) -> ScriptEnd
    ensures end { IsWrittenEnd printing script.now (K.written sink.old) (K.written sink.new) result }
    ensures cause { result ≡ ends.WriteFault → Rose (K.faults sink.old) (K.faults sink.new) }
    ensures quiet { result ≢ ends.WriteFault → K.faults sink.new ≡ K.faults sink.old }
    ensures later { K.faults sink.old ≤ K.faults sink.new }
{
    match printing {
        Printing::Full => play(alloc, script, sink),
        Printing::Summary => sum_up(alloc, script, sink),
    }
}

/// Plays a script among so many workers, and writes the summary of its replies at the end.
fn sum_up_among<R: Threads + Wait + Sync, G: Gate + Sync, K: Sink>(
    rt: &R,
    alloc: Global,
    script: &[u8],
    workers: u8,
    sink: &mut K,
    gate: &G,
) -> ThreadedEnd
    requires some { 0 < workers }
    requires most { workers ≤ 8 }
    ensures end { IsWrittenAmong Summary script.now (K.written sink.old) (K.written sink.new) result }
    ensures cause { result ≡ among.WriteFault → Rose (K.faults sink.old) (K.faults sink.new) }
    ensures quiet { result ≢ among.WriteFault → K.faults sink.new ≡ K.faults sink.old }
    ensures later { K.faults sink.old ≤ K.faults sink.new }
{
    let lines = Vec::new(alloc);
    let mut gatherer = Gatherer { lines };
    match threaded::play(rt, alloc, script, workers, &mut gatherer, gate) {
        ThreadedEnd::Whole { refused, states } => {
            match write_summary(alloc, &gatherer.lines, sink) {
                Ok(()) => ThreadedEnd::Whole { refused, states },
                Err(WriteError::WriteFault) => ThreadedEnd::WriteFault,
                Err(WriteError::Memory) => ThreadedEnd::Memory,
            }
        }
        ThreadedEnd::Memory => ThreadedEnd::Memory,
        ThreadedEnd::WriteFault => unreachable!(),
    }
}

/// Plays a script to its end among so many workers, and writes its replies.
pub(crate) fn play_among<R: Threads + Wait + Sync, G: Gate + Sync, K: Sink>(
    rt: &R,
    alloc: Global,
    script: &[u8],
    printing: Printing,
    workers: u8,
    sink: &mut K,
    gate: &G,
) -> ThreadedEnd
    requires some { 0 < workers }
    requires most { workers ≤ 8 }
    ensures end { IsWrittenAmong printing script.now (K.written sink.old) (K.written sink.new) result }
    ensures cause { result ≡ among.WriteFault → Rose (K.faults sink.old) (K.faults sink.new) }
    ensures quiet { result ≢ among.WriteFault → K.faults sink.new ≡ K.faults sink.old }
    ensures later { K.faults sink.old ≤ K.faults sink.new }
{
    match printing {
        Printing::Full => threaded::play(rt, alloc, script, workers, sink, gate),
        Printing::Summary => sum_up_among(rt, alloc, script, workers, sink, gate),
    }
}
