//! The granules that a range reads.
ghost use Rattle.std.specs.Prelude.{◌≡◌, ◌<◌, ◌≤◌, ◌↔◌, ◌*◌, length, slice_index_or, [], ℕ, true, false};
ghost use Rattle.std.specs.List.{AllWithin};
ghost use Rattle.rmt_values.specs.declared.checked.Checked.{Checked};
ghost use Rattle.rmt_values.specs.Filters.{holds};
ghost use Rattle.rmt_granules.specs.Granules.{Rising};
ghost use Rattle.rmt_keyrange.specs.Ranges.{IsRangeOf};
ghost use Rattle.rmt_keyrange.specs.Chosen.{at_most, is_below, IsChosen};

use crate::key_range::KeyRange;
use rmt_granules::PartData;
use rmt_values::Row;

/// The granules that a range reads, from the first to past the last, counted from 0; equal numbers where it reads none.
/// It takes two binary searches over the marks.
pub fn select(part: &PartData, range: &KeyRange) -> (usize, usize)
    ensures order { result.0 ≤ result.1 }
    ensures bound { result.1 ≤ length part.now.marks }
    ensures chosen { (g : ℕ) → g < length part.now.marks
        → ((result.0 ≤ g) × (g < result.1)) ↔ IsChosen range.now.low range.now.high part.now.marks g }
    ensures kept { (filter : Checked) → IsRangeOf part.now.key filter range.now → (i : ℕ) → i < length part.now.rows
        → holds filter (slice_index_or part.now.rows i []) ≡ true
        → (result.0 * part.now.granularity ≤ i) × (i < result.1 * part.now.granularity) }
{
    let _marks = part.marks();
    chosen_by(part, range)
}

/// The granules that a range reads, by their marks.
fn chosen_by(part: &PartData, range: &KeyRange) -> (usize, usize)
    ensures order { result.0 ≤ result.1 }
    ensures bound { result.1 ≤ length part.now.marks }
    ensures chosen { (g : ℕ) → g < length part.now.marks
        → ((result.0 ≤ g) × (g < result.1)) ↔ IsChosen range.now.low range.now.high part.now.marks g }
{
    let marks = part.marks();
    let past = count_reached(marks, range);
    let first = count_passed(marks, range).saturating_sub(1);
    (first.min(past), past)
}

/// How many marks are at most the upper bound.
fn count_reached(marks: &[Row], range: &KeyRange) -> usize
    requires { Rising marks.now }
    ensures bound { result ≤ length marks.now }
    ensures below { AllWithin (λ m. at_most range.now.high m ≡ true) marks.now 0 result }
    ensures above { AllWithin (λ m. at_most range.now.high m ≡ false) marks.now result (length marks.now) }
{
    marks.partition_point(|mark| reaches(range, mark))
}

/// How many marks are below the lower bound.
fn count_passed(marks: &[Row], range: &KeyRange) -> usize
    requires { Rising marks.now }
    ensures bound { result ≤ length marks.now }
    ensures below { AllWithin (λ m. is_below range.now.low m ≡ true) marks.now 0 result }
    ensures above { AllWithin (λ m. is_below range.now.low m ≡ false) marks.now result (length marks.now) }
{
    marks.partition_point(|mark| passes(range, mark))
}

/// Whether the mark is at most the upper bound.
fn reaches(range: &KeyRange, mark: &Row) -> bool
    ensures { result ≡ at_most range.now.high mark.now }
{
    match &range.high {
        None => true,
        Some(bound) => match mark.values().get(0) {
            None => true,
            Some(first) => first.compare(bound).is_le(),
        },
    }
}

/// Whether the mark is below the lower bound.
fn passes(range: &KeyRange, mark: &Row) -> bool
    ensures { result ≡ is_below range.now.low mark.now }
{
    match &range.low {
        None => false,
        Some(bound) => match mark.values().get(0) {
            None => true,
            Some(first) => first.compare(bound).is_lt(),
        },
    }
}
