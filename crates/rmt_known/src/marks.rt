//! Marks of the places that are known at one replica.
ghost use Rattle.std.specs.Prelude.{◌≡◌, ◌≤◌, ◌<◌, ℕ, ◌&&◌, true, false, nat_eq, nat_lt, nat_le, length, OnOk, OnErr};
ghost use Rattle.rmt_queue.specs.Marks.{done_at};
ghost use Rattle.rmt_statement_model.specs.TableStates.{is_shown as is_shown_in};
ghost use Rattle.rmt_partset.specs.Snapshots.{names_in, AreInOrder};
ghost use Rattle.rmt_known.specs.KnownTables.{GainsMarks};

use crate::covering::is_shown;
use rmt_history::LogCopy;
use rmt_partset::NamedPart;
use rmt_queue::Queue;
use std::alloc::AllocError;

/// Whether a place is marked; one without a mark isn't.
pub(crate) fn is_marked(marks: &Queue, i: usize) -> bool
    ensures { result ≡ done_at marks.now i }
{
    if i >= marks.len() {
        return false;
    }
    marks.done(i)
}

/// The lowest place that isn't marked.
pub(crate) fn first_unmarked(marks: &Queue) -> usize
    ensures below { (k : ℕ) → k < result → done_at marks.now k ≡ true }
    ensures unmarked { done_at marks.now result ≡ false }
{
    match marks.lowest() {
        Some(place) => place,
        None => marks.len(),
    }
}

/// Marks a place. At an error no memory was left.
pub(crate) fn mark_place(marks: &mut Queue, i: usize) -> Result<(), AllocError>
    ensures ok { OnOk result (GainsMarks marks.old (λ j. nat_eq j i) marks.new) }
    ensures err { OnErr result (marks.new ≡ marks.old) }
{
    let Some(len) = i.checked_add(1) else {
        return Err(AllocError);
    };
    marks.grow(len)?;
    marks.mark(i);
    Ok(())
}

/// Marks the places from one up to another.
fn mark_between(marks: &mut Queue, from: usize, to: usize)
    requires { to ≤ length marks.old }
    ensures { GainsMarks marks.old (λ j. nat_le from j && nat_lt j to) marks.new }
{
    'places: for i in from..to {
        marks.mark(i);
    }
}

/// Marks each place below a length. At an error no memory was left.
pub(crate) fn mark_below(marks: &mut Queue, len: usize) -> Result<(), AllocError>
    ensures ok { OnOk result (GainsMarks marks.old (λ j. nat_lt j len) marks.new) }
    ensures err { OnErr result (marks.new ≡ marks.old) }
{
    let from = first_unmarked(marks);
    marks.grow(len)?;
    mark_between(marks, from, len);
    Ok(())
}

/// Marks a place where one of the parts covers what its entry makes.
fn mark_if_shown(marks: &mut Queue, copy: &LogCopy, parts: &[NamedPart], i: usize)
    requires place { i < length marks.old }
    requires order { AreInOrder parts.now }
    ensures marks { GainsMarks marks.old (λ j. nat_eq j i && is_shown_in copy.now.log (names_in parts.now) j) marks.new }
    ensures length { length marks.new ≡ length marks.old }
{
    if marks.done(i) {
        return;
    }
    if is_shown(copy, parts, i) {
        marks.mark(i);
    }
}

/// Marks the places from one on where one of the parts covers what the entry makes.
fn mark_shown_from(marks: &mut Queue, copy: &LogCopy, parts: &[NamedPart], from: usize)
    requires places { length copy.now.log ≤ length marks.old }
    requires order { AreInOrder parts.now }
    ensures { GainsMarks marks.old (λ j. nat_le from j && is_shown_in copy.now.log (names_in parts.now) j) marks.new }
{
    'places: for i in from..copy.len() {
        mark_if_shown(marks, copy, parts, i);
    }
}

/// Marks each place where one of the parts covers what the entry makes. At an error no memory was left.
pub(crate) fn mark_shown(
    marks: &mut Queue,
    copy: &LogCopy,
    parts: &[NamedPart],
) -> Result<(), AllocError>
    requires order { AreInOrder parts.now }
    ensures ok { OnOk result (GainsMarks marks.old (is_shown_in copy.now.log (names_in parts.now)) marks.new) }
    ensures err { OnErr result (marks.new ≡ marks.old) }
{
    let from = first_unmarked(marks);
    marks.grow(copy.len())?;
    mark_shown_from(marks, copy, parts, from);
    Ok(())
}
