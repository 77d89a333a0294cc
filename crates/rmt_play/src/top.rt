ghost use Rattle.std.specs.Prelude.{◌≡◌, ◌≢◌, ◌⊎◌, ◌≤◌, ◌<◌, ◌+◌, ◌↔◌, length, map, Some, None, true, false};
ghost use Rattle.std.specs.String.{string_bytes};
ghost use Rattle.std.specs.Io.KnownBytes.{IsAtEnd};
ghost use Rattle.rmt_outside.specs.Faults.{Rose};
ghost use Rattle.rmt_outside.specs.StreamBytes.{ConsumesUpTo, ConsumesExactly};
ghost use Rattle.rmt_storm.specs.Storms.{storm_text};
ghost use Rattle.rmt_play.specs.Forms.{AreFew, form_in};
ghost use Rattle.rmt_play.specs.Threads.{AreClearIn, PlayedAmong, PlaysCut, PlaysInPart, PlaysToEnd};
ghost use Rattle.rmt_play.specs.Runs.{
  GivesScript,
  GivesScriptWithin,
  PlayedWhole,
  PlayedInPart,
  CutShort,
  IsCode,
  IsPlayCode,
  Writes,
};
ghost use Rattle.rmt_play.specs.Commands.{IsPlay, IsWorkload, RunsInPart, RunsScript};
ghost use Rattle.rmt_play.specs.declared.printing.Printing.TheVariants.{Full, Summary};
ghost use Rattle.rmt_play.specs.declared.end.End.TheVariants as ends;
ghost use Rattle.rmt_play.specs.ScriptEnds.{IsStatusOf, IsHandedBack};
ghost use Rattle.rmt_play.specs.ThreadedRounds.{IsHandedAmong, IsThreadedStatus};

use crate::end::End;
use crate::form::Form;
use crate::printing::Printing;
use crate::script_end::ScriptEnd;
use crate::status::Status;
use crate::task::Task;
use crate::threaded::ThreadedEnd;
use crate::words::{form_of, read_words};
use crate::written::{play_alone, play_among};
use rmt_cluster::Cluster;
use rmt_list::List;
use rmt_outside::{Gate, ReadError, Sink, Source, read_all};
use rmt_state::State;
use rmt_storm::script as storm_script;
use std::alloc::Global;
use std::sync::Wait;
use std::thread::Threads;

/// The longest script, in bytes.
pub const LONGEST: usize = 67_108_864;

/// The end of a run that played no script to its end.
fn ended(code: u8) -> Status
    ensures { result ≡ record { code = code; refused = 0 } }
{
    Status { code, refused: 0 }
}

/// The code of a script that was played to its end, with so many statements refused.
fn code_of(refused: u64) -> u8
    ensures { ((result ≡ 0) × (refused ≡ 0)) ⊎ ((result ≡ 2) × (0 < refused)) }
{
    if refused == 0 { 0 } else { 2 }
}

/// The status of a script that was played, and its clusters; none where it wasn't played to its end.
fn status_of(alloc: Global, end: ScriptEnd) -> (Status, List<Cluster>)
    ensures { IsStatusOf end result }
{
    match end {
        ScriptEnd::Whole { refused, clusters } => {
            let code = code_of(refused);
            (Status { code, refused }, clusters)
        }
        ScriptEnd::WriteFault => (ended(5), List::new(Vec::new(alloc))),
        ScriptEnd::Memory => (ended(6), List::new(Vec::new(alloc))),
    }
}

/// Plays a script, one statement after the other, and writes the replies to `sink`: each before the next statement begins, or a
/// summary of them at the end. At code 0 and 2 the clusters of its tables are handed back, in the order in which they were created; at
/// code 5 and 6 there are none.
pub fn play_stepped<K: Sink>(
    alloc: Global,
    script: &[u8],
    printing: Printing,
    sink: &mut K,
) -> (Status, List<Cluster>)
    // The script was played to its end; none of its statements were refused, or some.
    ensures accepted { result.0.code ≡ 0 → PlayedWhole false script.now
        (Writes printing (K.written sink.old) (K.written sink.new)) 0 result.1 }
    ensures refused { result.0.code ≡ 2 → PlayedWhole false script.now
        (Writes printing (K.written sink.old) (K.written sink.new)) result.0.refused result.1 }
    ensures some_refused { result.0.code ≡ 2 → 0 < result.0.refused }
    ensures none_refused { result.0.code ≢ 2 → result.0.refused ≡ 0 }

    // A write fault, or out of memory: a prefix of an allowed output was written.
    ensures cut_short { result.0.code ≡ 5
        → CutShort false printing (K.written sink.old) (K.written sink.new) script.now }
    ensures memory { result.0.code ≡ 6
        → PlayedInPart false printing (K.written sink.old) (K.written sink.new) script.now }

    ensures write_fault { result.0.code ≡ 5 → Rose (K.faults sink.old) (K.faults sink.new) }
    ensures no_write_fault { result.0.code ≢ 5 → K.faults sink.new ≡ K.faults sink.old }
    ensures codes { IsPlayCode result.0.code }
    ensures sink_faults { K.faults sink.old ≤ K.faults sink.new }
{
    let end = play_alone(alloc, script, printing, sink);
    status_of(alloc, end)
}

/// The status of a script that was played among workers, and its tables; none where it wasn't played to its end.
fn threaded_status(alloc: Global, end: ThreadedEnd) -> (Status, List<State>)
    ensures { IsThreadedStatus end result }
{
    match end {
        ThreadedEnd::Whole { refused, states } => {
            let code = code_of(refused);
            (Status { code, refused }, states)
        }
        ThreadedEnd::WriteFault => (ended(5), List::new(Vec::new(alloc))),
        ThreadedEnd::Memory => (ended(6), List::new(Vec::new(alloc))),
    }
}

/// Plays a script among so many workers, 1 to 8, that merge, mutate and fetch while its statements go on, and writes the replies to
/// `sink`, as `play_stepped` does. What is said of the replies asks that no two blocks of one id that the script brings differ. At code
/// 0 and 2 the tables are handed back, each with its replicas, in the order in which they were created; at code 5 and 6 there are none.
/// It returns once no thread is left. A thread that can't be started is left out.
pub fn play_threaded<R: Threads + Wait + Sync, K: Sink, G: Gate + Sync>(
    rt: &R,
    alloc: Global,
    script: &[u8],
    printing: Printing,
    workers: u8,
    sink: &mut K,
    gate: &G,
) -> (Status, List<State>)
    requires some { 0 < workers }
    requires most { workers ≤ 8 }

    // The script was played to its end; none of its statements were refused, or some.
    ensures accepted { result.0.code ≡ 0 → AreClearIn script.now
        → PlayedAmong script.now (Writes printing (K.written sink.old) (K.written sink.new)) 0 result.1 }
    ensures refused { result.0.code ≡ 2 → AreClearIn script.now
        → PlayedAmong script.now (Writes printing (K.written sink.old) (K.written sink.new)) result.0.refused result.1 }
    ensures some_refused { result.0.code ≡ 2 → 0 < result.0.refused }
    ensures none_refused { result.0.code ≢ 2 → result.0.refused ≡ 0 }

    // A write fault, or out of memory: a prefix of an allowed output was written.
    ensures cut_short { result.0.code ≡ 5 → AreClearIn script.now
        → CutShort true printing (K.written sink.old) (K.written sink.new) script.now }
    ensures memory { result.0.code ≡ 6 → AreClearIn script.now
        → PlayedInPart true printing (K.written sink.old) (K.written sink.new) script.now }

    ensures write_fault { result.0.code ≡ 5 → Rose (K.faults sink.old) (K.faults sink.new) }
    ensures no_write_fault { result.0.code ≢ 5 → K.faults sink.new ≡ K.faults sink.old }
    ensures codes { IsPlayCode result.0.code }
    ensures sink_faults { K.faults sink.old ≤ K.faults sink.new }
{
    let end = play_among(rt, alloc, script, printing, workers, sink, gate);
    threaded_status(alloc, end)
}

/// What is handed back of a script that was played.
fn handed_back(status: &Status, clusters: List<Cluster>) -> End
    ensures { IsHandedBack status.now.code clusters result }
{
    match status.code {
        0 | 2 => End::Stepped(clusters),
        _ => End::Nothing,
    }
}

/// What is handed back of one that was played among workers.
fn handed_among(status: &Status, states: List<State>) -> End
    ensures { IsHandedAmong status.now.code states result }
{
    match status.code {
        0 | 2 => End::Threaded(states),
        _ => End::Nothing,
    }
}

/// Plays a script beside so many workers, or none, and what is handed back.
fn play_by<R: Threads + Wait + Sync, K: Sink, G: Gate + Sync>(
    rt: &R,
    alloc: Global,
    workers: Option<u8>,
    script: &[u8],
    printing: Printing,
    sink: &mut K,
    gate: &G,
) -> (Status, End)
    requires few { AreFew workers }
    ensures accepted { result.0.code ≡ 0
        → PlaysToEnd workers printing (K.written sink.old) (K.written sink.new) 0 result.1 script.now }
    ensures refused { result.0.code ≡ 2
        → PlaysToEnd workers printing (K.written sink.old) (K.written sink.new) result.0.refused result.1 script.now }
    ensures some_refused { result.0.code ≡ 2 → 0 < result.0.refused }
    ensures none_refused { result.0.code ≢ 2 → result.0.refused ≡ 0 }
    ensures nothing { result.0.code ≢ 0 → result.0.code ≢ 2 → result.1 ≡ ends.Nothing }
    ensures cut_short { result.0.code ≡ 5 → PlaysCut workers printing (K.written sink.old) (K.written sink.new) script.now }
    ensures memory { result.0.code ≡ 6 → PlaysInPart workers printing (K.written sink.old) (K.written sink.new) script.now }
    ensures write_fault { result.0.code ≡ 5 → Rose (K.faults sink.old) (K.faults sink.new) }
    ensures no_write_fault { result.0.code ≢ 5 → K.faults sink.new ≡ K.faults sink.old }
    ensures codes { IsPlayCode result.0.code }
    ensures sink_faults { K.faults sink.old ≤ K.faults sink.new }
{
    match workers {
        None => {
            let (status, clusters) = play_stepped(alloc, script, printing, sink);
            let end = handed_back(&status, clusters);
            (status, end)
        }
        Some(count) => {
            let (status, states) = play_threaded(rt, alloc, script, printing, count, sink, gate);
            let end = handed_among(&status, states);
            (status, end)
        }
    }
}

/// Plays the script that a source gives, which is read to its end before the first statement is played, and writes each reply.
#[tactic(auto, using(crate::proofs::RunLemmas::none_given))]
fn play_given<R: Threads + Wait + Sync, S: Source, K: Sink, G: Gate + Sync>(
    rt: &R,
    alloc: Global,
    workers: Option<u8>,
    source: &mut S,
    sink: &mut K,
    gate: &G,
) -> (Status, End)
    requires few { AreFew workers }
    ensures accepted { result.0.code ≡ 0 → GivesScriptWithin LONGEST (S.left source.old)
        (PlaysToEnd workers Full (K.written sink.old) (K.written sink.new) 0 result.1) }
    ensures refused { result.0.code ≡ 2 → GivesScriptWithin LONGEST (S.left source.old)
        (PlaysToEnd workers Full (K.written sink.old) (K.written sink.new) result.0.refused result.1) }
    ensures some_refused { result.0.code ≡ 2 → 0 < result.0.refused }
    ensures none_refused { result.0.code ≢ 2 → result.0.refused ≡ 0 }
    ensures nothing { result.0.code ≢ 0 → result.0.code ≢ 2 → result.1 ≡ ends.Nothing }
    ensures has_form { result.0.code ≢ 3 }
    ensures read_fault { result.0.code ≡ 4 → Rose (S.faults source.old) (S.faults source.new) }
    ensures no_read_fault { result.0.code ≢ 4 → S.faults source.new ≡ S.faults source.old }
    ensures too_long { result.0.code ≡ 7
        → ConsumesExactly (S.left source.old) (S.left source.new) (LONGEST + 1) }
    ensures within { result.0.code ≢ 7
        → ConsumesUpTo (S.left source.old) (S.left source.new) LONGEST }
    ensures unwritten { (result.0.code ≡ 4) ⊎ (result.0.code ≡ 7) → sink.new ≡ sink.old }
    ensures write_fault { result.0.code ≡ 5 → Rose (K.faults sink.old) (K.faults sink.new) }
    ensures no_write_fault { result.0.code ≢ 5 → K.faults sink.new ≡ K.faults sink.old }
    ensures cut_short { result.0.code ≡ 5 → GivesScriptWithin LONGEST (S.left source.old)
        (PlaysCut workers Full (K.written sink.old) (K.written sink.new)) }
    ensures read { (result.0.code ≡ 0) ⊎ (result.0.code ≡ 2) ⊎ (result.0.code ≡ 5)
        → IsAtEnd (S.left source.new) }
    ensures memory { result.0.code ≡ 6 → GivesScript (S.left source.old)
        (PlaysInPart workers Full (K.written sink.old) (K.written sink.new)) }
    ensures memory_unread { result.0.code ≡ 6
        → (IsAtEnd (S.left source.new)) ⊎ (sink.new ≡ sink.old) }
    ensures codes { IsCode result.0.code }
    ensures source_faults { S.faults source.old ≤ S.faults source.new }
    ensures sink_faults { K.faults sink.old ≤ K.faults sink.new }
{
    let script = match read_all(alloc, source, LONGEST) {
        Ok(script) => script,
        Err(ReadError::ReadFault) => return (ended(4), End::Nothing),
        Err(ReadError::TooLong) => return (ended(7), End::Nothing),
        Err(ReadError::Memory) => return (ended(6), End::Nothing),
    };
    play_by(rt, alloc, workers, &script, Printing::Full, sink, gate)
}

/// Plays a workload of so many turns that a generator draws from a seed, and writes the summary of its replies at the end.
#[tactic(auto, using(crate::proofs::RunLemmas::none_played))]
fn play_storm<R: Threads + Wait + Sync, K: Sink, G: Gate + Sync>(
    rt: &R,
    alloc: Global,
    workers: Option<u8>,
    seed: u32,
    turns: u32,
    sink: &mut K,
    gate: &G,
) -> (Status, End)
    requires few { AreFew workers }
    ensures accepted { result.0.code ≡ 0
        → PlaysToEnd workers Summary (K.written sink.old) (K.written sink.new) 0 result.1 (storm_text seed turns) }
    ensures refused { result.0.code ≡ 2
        → PlaysToEnd workers Summary (K.written sink.old) (K.written sink.new) result.0.refused result.1 (storm_text seed turns) }
    ensures some_refused { result.0.code ≡ 2 → 0 < result.0.refused }
    ensures none_refused { result.0.code ≢ 2 → result.0.refused ≡ 0 }
    ensures nothing { result.0.code ≢ 0 → result.0.code ≢ 2 → result.1 ≡ ends.Nothing }
    ensures cut_short { result.0.code ≡ 5 → PlaysCut workers Summary (K.written sink.old) (K.written sink.new) (storm_text seed turns) }
    ensures memory { result.0.code ≡ 6 → PlaysInPart workers Summary (K.written sink.old) (K.written sink.new) (storm_text seed turns) }
    ensures write_fault { result.0.code ≡ 5 → Rose (K.faults sink.old) (K.faults sink.new) }
    ensures no_write_fault { result.0.code ≢ 5 → K.faults sink.new ≡ K.faults sink.old }
    ensures codes { IsPlayCode result.0.code }
    ensures sink_faults { K.faults sink.old ≤ K.faults sink.new }
{
    let Ok(script) = storm_script(alloc, seed, turns) else {
        return (ended(6), End::Nothing);
    };
    play_by(rt, alloc, workers, &script, Printing::Summary, sink, gate)
}

/// Runs the command. `words` are the words after the program's name, read with `clap`: `play` plays the script that `source` gives and
/// writes the replies to `sink`; the source is read to its end before the first statement is played. `storm SEED N` plays a workload of N
/// turns, 1 to 20,000, that a generator draws from a seed, 0 to 2,147,483,647, and writes the summary of its replies; the source isn't
/// read then. With `--workers K`, 1 to 8, so many workers merge, mutate and fetch while the statements go on. Without workers no gate is
/// passed, and nobody waits.
#[tactic(auto, using(crate::proofs::RunLemmas::none_run))]
pub fn run<R: Threads + Wait + Sync, S: Source, K: Sink, G: Gate + Sync>(
    rt: &R,
    alloc: Global,
    words: &[String],
    source: &mut S,
    sink: &mut K,
    gate: &G,
) -> (Status, End)
    // The script was played to its end; none of its statements were refused, or some.
    ensures accepted { result.0.code ≡ 0 → RunsScript LONGEST (form_in (map string_bytes words.now)) (S.left source.old)
        (λ workers printing. PlaysToEnd workers printing (K.written sink.old) (K.written sink.new) 0 result.1) }
    ensures refused { result.0.code ≡ 2 → RunsScript LONGEST (form_in (map string_bytes words.now)) (S.left source.old)
        (λ workers printing. PlaysToEnd workers printing (K.written sink.old) (K.written sink.new) result.0.refused result.1) }
    ensures some_refused { result.0.code ≡ 2 → 0 < result.0.refused }
    ensures none_refused { result.0.code ≢ 2 → result.0.refused ≡ 0 }
    ensures nothing { result.0.code ≢ 0 → result.0.code ≢ 2 → result.1 ≡ ends.Nothing }

    // The words have no form: nothing is read.
    ensures words { (result.0.code ≡ 3) ↔ (form_in (map string_bytes words.now) ≡ None) }
    ensures unread { result.0.code ≡ 3 → source.new ≡ source.old }

    // A workload is played as a script is, but that nothing is read.
    ensures workload { IsWorkload (form_in (map string_bytes words.now))
        → IsPlayCode result.0.code × (source.new ≡ source.old) }

    // A read fault. No other code hides one.
    ensures read_fault { result.0.code ≡ 4 → Rose (S.faults source.old) (S.faults source.new) }
    ensures no_read_fault { result.0.code ≢ 4 → S.faults source.new ≡ S.faults source.old }

    // More than the limit was given before a read failed. No other code hides that.
    ensures too_long { result.0.code ≡ 7
        → ConsumesExactly (S.left source.old) (S.left source.new) (LONGEST + 1) }
    ensures within { result.0.code ≢ 7
        → ConsumesUpTo (S.left source.old) (S.left source.new) LONGEST }

    // No script was read: nothing is written.
    ensures unwritten { (result.0.code ≡ 3) ⊎ (result.0.code ≡ 4) ⊎ (result.0.code ≡ 7)
        → sink.new ≡ sink.old }

    // A write fault: a prefix of an allowed output was written. No other code hides one.
    ensures write_fault { result.0.code ≡ 5 → Rose (K.faults sink.old) (K.faults sink.new) }
    ensures no_write_fault { result.0.code ≢ 5 → K.faults sink.new ≡ K.faults sink.old }
    ensures cut_short { result.0.code ≡ 5 → RunsScript LONGEST (form_in (map string_bytes words.now)) (S.left source.old)
        (λ workers printing. PlaysCut workers printing (K.written sink.old) (K.written sink.new)) }

    // The script of a play was read to its end before any of it was played.
    ensures read { (result.0.code ≡ 0) ⊎ (result.0.code ≡ 2) ⊎ (result.0.code ≡ 5)
        → IsPlay (form_in (map string_bytes words.now)) → IsAtEnd (S.left source.new) }

    // Out of memory: whole replies were written, none before the script was read to its end; of a summary nothing was.
    ensures memory { result.0.code ≡ 6 → RunsInPart (form_in (map string_bytes words.now)) (S.left source.old)
        (λ workers printing. PlaysInPart workers printing (K.written sink.old) (K.written sink.new)) }
    ensures memory_unread { result.0.code ≡ 6 → IsPlay (form_in (map string_bytes words.now))
        → (IsAtEnd (S.left source.new)) ⊎ (sink.new ≡ sink.old) }

    ensures codes { IsCode result.0.code }
    ensures source_faults { S.faults source.old ≤ S.faults source.new }
    ensures sink_faults { K.faults sink.old ≤ K.faults sink.new }
{
    let Some(Form { task, workers }) = form_of(words) else {
        return (ended(3), End::Nothing);
    };
    if read_words(alloc, words).is_err() {
        return (ended(6), End::Nothing);
    }
    match task {
        Task::Play => play_given(rt, alloc, workers, source, sink, gate),
        Task::Storm { seed, turns } => play_storm(rt, alloc, workers, seed, turns, sink, gate),
    }
}
