//! What to merge next.
ghost use Rattle.std.specs.Prelude.{◌≡◌, ◌+◌, ◌<◌, ◌≤◌, List, length, take, drop, IfOk};
ghost use Rattle.std.specs.declared.option.Option.{Option};
ghost use Rattle.std.specs.Vec.{vec_items};
ghost use Rattle.std.specs.Option.{option_map};
ghost use Rattle.rmt_names.specs.Names.{Name};
ghost use Rattle.rmt_model.specs.Live.{live};
ghost use Rattle.rmt_model.specs.Choices.{greatest_level, best_run, better as better_of};
ghost use Rattle.rmt_pick.specs.Runs.{count_before, names_in, IsRun, StandsFor};

use crate::limits::Limits;
use crate::run::Run;
use rmt_history::LogCopy;
use rmt_names::PartName;
use std::alloc::{AllocError, Global};

/// The parts to merge next. Each run begins at a live name and goes on over neighbours of its partition and version,
/// up to the most that a merge takes. Of the runs of two names or more it is the one whose greatest level is least,
/// of equals the first. At an error no memory was left.
pub fn choose(
    alloc: Global,
    copy: &LogCopy,
    limits: &Limits,
) -> Result<Option<Vec<PartName>>, AllocError>
    ensures run { IfOk result (λ names.
        option_map vec_items names ≡ best_run copy.now.log limits.now.most (live copy.now.log)) }
{
    let Some(run) = best(copy, limits.most()) else {
        return Ok(None);
    };
    let chosen = copied(alloc, copy.live().split_at(run.first).1, run.count)?;
    Ok(Some(chosen))
}

/// The best of the runs that begin at a live name. It looks for the version of each name once.
fn best(copy: &LogCopy, most: usize) -> Option<Run>
    requires { 2 ≤ most }
    ensures { StandsFor (live copy.now.log) result (best_run copy.now.log most (live copy.now.log)) }
{
    let names = copy.live();
    let mut best = None;
    let mut count = 0;
    let mut version = 0;
    let mut i = names.len();
    'names: while i > 0 {
        i -= 1;
        let rest = names.split_at(i).1;
        let own = copy.ver(&names[i]);
        count = run_len(rest, own, version, count, most);
        version = own;
        let top = top_of(rest, count);
        best = better(
            Run {
                first: i,
                count,
                top,
            },
            best,
        );
    }
    best
}

/// How many names the run has that begins at the first of these, which is of the version `own`. The run that begins
/// at the second one has `count` names, the first of them of this version.
fn run_len(names: &[PartName], own: u32, version: u32, count: usize, most: usize) -> usize
    ensures { result ≡ count_before names.now own version count most }
{
    let [first, second, ..] = names else {
        return names.len();
    };
    if first.partition() != second.partition() {
        return 1;
    }
    if own != version {
        return 1;
    }
    if count < most { count + 1 } else { most }
}

/// The greatest level of the first names, so many.
fn top_of(names: &[PartName], count: usize) -> u32
    requires { count ≤ length names.now }
    ensures { result ≡ greatest_level (take count names.now) }
{
    let mut top = 0;
    let mut i = count;
    'levels: while i > 0 {
        i -= 1;
        top = names[i].level().max(top);
    }
    top
}

/// A run, or the best of those that begin after it: the run where it has two names or more, and no greater level.
fn better(run: Run, other: Option<Run>) -> Option<Run>
    ensures { (names : List Name) (best : Option (List Name)) → IsRun names run → StandsFor names other best
        → StandsFor names result (better_of (names_in names run) best) }
{
    if run.count < 2 {
        return other;
    }
    let Some(there) = other else {
        return Some(run);
    };
    if run.top > there.top {
        return other;
    }
    Some(run)
}

/// Returns copies of the first names, so many.
fn copied(alloc: Global, names: &[PartName], count: usize) -> Result<Vec<PartName>, AllocError>
    requires { count ≤ length names.now }
    ensures { IfOk result (λ all. all.items ≡ take count names.now) }
{
    let all = Vec::from_slice(alloc, names.split_at(count).0)?;
    Ok(all)
}
