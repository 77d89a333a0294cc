//! The choice of the next job.
ghost use Rattle.std.specs.Prelude.{◌≡◌, ◌↔◌, ◌<◌, ◌≤◌, ℕ, IsTrue, IfOk, OnErr, MatchOption, length};
ghost use Rattle.std.specs.declared.option.Option.TheVariants.{None};
ghost use Rattle.rmt_events.specs.Draws.{chosen};
ghost use Rattle.rmt_jobs.specs.Jobs.{WaitsForPart, IsGetEntry, CanApply, NoneToApply, IsFirstToApply, HasNothingToApply, IsJob};

use crate::job::Job;
use rmt_entries::Entry;
use rmt_list::List;
use rmt_pick::{Limits, choose, next_mutation};
use rmt_replica::{Replica, Why};
use std::alloc::{AllocError, Global};

/// How many parts a merge takes at most.
const MOST_PARTS: usize = 10;

/// What a background worker does next at a replica, where the table's log has `log_len` entries.
///
/// It reads nothing but the replica. So a job that the cluster refuses is the next one again, as long as the replica stays
/// as it is: a merge across a number that an open insert holds, or with a part that waits for its quorum, or a Get that no
/// other replica has the block of.
///
/// At an error no memory was left: only the choice of a merge takes any.
pub fn next_job(alloc: Global, replica: &Replica, log_len: u32) -> Result<Job, AllocError>
    requires few { length replica.now.log ≤ 65536 }
    ensures job { IfOk result (IsJob replica.now log_len) }
    ensures err { OnErr result (HasNothingToApply replica.now log_len) }
{
    if !replica.is_up() {
        return Ok(Job::Idle);
    }
    if replica.copy().len() < log_len as usize {
        return Ok(Job::Pull);
    }
    let Some(place) = first_to_apply(replica) else {
        return merge_or_mutate(alloc, replica);
    };
    Ok(Job::Apply(place as u32))
}

/// The lowest place of the copy whose entry isn't done and can be done; none where there is none.
fn first_to_apply(replica: &Replica) -> Option<usize>
    ensures { MatchOption result (NoneToApply replica.now) (IsFirstToApply replica.now) }
{
    let copy = replica.copy();
    'places: for i in replica.first_pending()..copy.len() {
        if replica.done(i) {
            continue;
        }
        if can_apply(replica, i) {
            return Some(i);
        }
    }
    None
}

/// Whether the entry at a place of the copy can be done, where it isn't done.
fn can_apply(replica: &Replica, i: usize) -> bool
    requires { i < length replica.now.log }
    ensures { IsTrue result ↔ CanApply replica.now i }
{
    if waits_for_part(replica, i) {
        return replica.fetches() && is_get(replica, i);
    }
    true
}

/// Whether the entry at a place of the copy waits for a part.
fn waits_for_part(replica: &Replica, i: usize) -> bool
    requires { i < length replica.now.log }
    ensures { IsTrue result ↔ WaitsForPart replica.now i }
{
    match replica.why(i) {
        Why::NeedsPart(_) => true,
        Why::Covered | Why::Dropped | Why::Ready => false,
    }
}

/// Whether the entry at a place of the copy is a Get.
fn is_get(replica: &Replica, i: usize) -> bool
    requires { i < length replica.now.log }
    ensures { IsTrue result ↔ IsGetEntry replica.now.log i }
{
    match replica.copy().entry(i).unwrap().value() {
        Entry::Get { .. } => true,
        _ => false,
    }
}

/// A merge of the parts that come next, at most `MOST_PARTS`; where there are none, the mutate that comes next.
///
/// At an error no memory was left.
fn merge_or_mutate(alloc: Global, replica: &Replica) -> Result<Job, AllocError>
    requires { length replica.now.log ≤ 65536 }
    ensures { IfOk result (λ job. (len : ℕ) → HasNothingToApply replica.now len → IsJob replica.now len job) }
{
    let found = choose(alloc, replica.copy(), &Limits::new(MOST_PARTS))?;
    let Some(names) = found else {
        return Ok(mutate_or_idle(replica));
    };
    Ok(Job::Merge(List::new(names)))
}

/// A mutate of the first part for which a mutation is pending, up to the last one; nothing where there is none.
fn mutate_or_idle(replica: &Replica) -> Job
    requires { length replica.now.log ≤ 65536 }
    ensures { (len : ℕ) → HasNothingToApply replica.now len → chosen replica.now.log 10 ≡ None
        → IsJob replica.now len result }
{
    let copy = replica.copy();
    let Some(found) = next_mutation(copy, copy.len()) else {
        return Job::Idle;
    };
    let (old, place) = found;
    let upto = place as u32;
    Job::Mutate { old, upto }
}
