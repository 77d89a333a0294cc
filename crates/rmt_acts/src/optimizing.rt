//! OPTIMIZE .. FINAL.
ghost use Rattle.std.specs.Prelude.{◌≡◌, ℕ, true, false, List as Names, length, IfOk, OnErr};
ghost use Rattle.std.specs.declared.option.Option.TheVariants.{Some};
ghost use Rattle.rmt_reply.specs.declared.refusal.Refusal.{Refusal as Why};
ghost use Rattle.rmt_reply.specs.declared.refusal.Refusal.TheVariants.{Unmergeable as UnmergeableOf};
ghost use Rattle.rmt_names.specs.Names.{Name};
ghost use Rattle.rmt_entries.specs.declared.entry.Entry.TheVariants.{Merge as MergeOf};
ghost use Rattle.rmt_model.specs.Words.{Has};
ghost use Rattle.rmt_model.specs.Lawful.{entry_at};
ghost use Rattle.rmt_state.specs.States.{IsNumber};
ghost use Rattle.rmt_statement_model.specs.TableStates.{TableState};
ghost use Rattle.rmt_statement_model.specs.Optimizes.{live_of, OptimizesTable};
ghost use Rattle.rmt_statement_model.specs.Shows.{IsIdle, IsUpToDate, Shows, Leads, ups, KeepsUps, fetching_of};
ghost use Rattle.rmt_acts.specs.StatementEvents.{OptimizeEvents, StopsAfter};
ghost use Rattle.rmt_acts.specs.Optimizing.{IsMergeAt, IsToldAs, MergesSome, OptimizesTo};

use crate::syncing::{catch_up, sync_replica};
use rmt_cluster::Cluster;
use rmt_entries::Entry;
use rmt_events::{Event, Reply, StepRefused};
use rmt_history::LogCopy;
use rmt_list::List;
use rmt_live_names::{Optimization, Optimized, live_names, partitions};
use rmt_names::{PartName, PartitionId};
use rmt_reply::Refusal;
use rmt_values::ReplicaId;
use std::alloc::{AllocError, Global};

/// Two neighbours may not be merged.
fn unmergeable(left: &PartName, right: &PartName) -> Refusal
    ensures { result ≡ UnmergeableOf left.now right.now }
{
    Refusal::Unmergeable {
        left: *left,
        right: *right,
    }
}

/// Why names that could be merged otherwise weren't.
fn refusal_of(why: &StepRefused) -> Refusal
    requires says { (r : Why) × IsToldAs why.now r }
    ensures { IsToldAs why.now result }
{
    match why {
        StepRefused::Differ { left, right } => unmergeable(left, right),
        StepRefused::InQuorum { left, right, .. } => unmergeable(left, right),
        StepRefused::LimitReached { limit, value } => Refusal::LimitReached {
            limit: *limit,
            value: *value,
        },
        _ => unreachable!(),
    }
}

/// The name that the merge at a place of a copy makes.
fn merged_at(copy: &LogCopy, place: usize) -> PartName
    requires merge { IsMergeAt copy.now.log place }
    ensures name { (a : Name) (sources : Names Name) (count : ℕ) → entry_at copy.now.log place ≡ Some (MergeOf a sources count)
        → result ≡ a }
{
    match copy.entry(place) {
        Some(token) => match token.value() {
            Entry::Merge { new, .. } => *new,
            _ => unreachable!(),
        },
        None => unreachable!(),
    }
}

/// Merges all live parts of a partition into one, where there are two or more, and brings the replica up to date then.
fn optimize_partition(
    alloc: Global,
    cluster: &mut Cluster,
    replica: ReplicaId,
    partition: PartitionId,
) -> Result<Optimized, AllocError>
    requires here { IsNumber replica (length cluster.old.replicas) }
    requires idle { IsIdle cluster.old replica }
    requires whole { IsUpToDate cluster.old replica }
    requires some { (a : Name) × Has (live_of cluster.old.table.log partition) a }
    ensures optimizes { IfOk result (λ o. OptimizesTo cluster.old replica partition o cluster.new) }
    ensures whole { IfOk result (λ _. IsUpToDate cluster.new replica) }
    ensures idle { IfOk result (λ _. IsIdle cluster.new replica) }
    ensures events { IfOk result (λ _. MergesSome cluster.old replica cluster.new) }
    ensures err { OnErr result (StopsAfter cluster.old cluster.new) }
    ensures keeps { KeepsUps cluster.old result cluster.new }
{
    // What always holds of a cluster is known here.
    cluster.drained_replicas_agree();
    let sources = live_names(alloc, cluster.copy(replica), partition)?;
    if sources.len() == 1 {
        return Ok(Optimized::Name(sources.as_slice()[0]));
    }
    let reply = cluster.step(alloc, Event::Merge { replica, sources })?;
    match &reply {
        Reply::Entry(place) => {
            catch_up(alloc, cluster, replica)?;
            let name = merged_at(cluster.copy(replica), *place as usize);
            Ok(Optimized::Name(name))
        }
        Reply::Refused(why) => Ok(Optimized::Refused(refusal_of(why))),
        _ => unreachable!(),
    }
}

/// Merges all parts of each partition into one, at a replica that may fetch and is brought up to date first and after each merge; or of one
/// partition alone. It ends at the first partition whose parts can't be merged, or before all where the replica lacks a part
/// whose source is down; what was merged stays so. At an error no memory was left, and what was done stays done.
pub fn optimize(
    alloc: Global,
    cluster: &mut Cluster,
    replica: ReplicaId,
    asked: Option<PartitionId>,
) -> Result<Optimization, AllocError>
    requires here { IsNumber replica (length cluster.old.replicas) }
    requires idle { IsIdle cluster.old replica }
    requires fetches { fetching_of cluster.old replica ≡ true }
    ensures optimizes { IfOk result (λ o. (t : TableState) → Shows cluster.old t
        → Leads cluster.new (OptimizesTable false (ups cluster.old) t replica asked o.names o.refused)) }
    ensures idle { IfOk result (λ _. IsIdle cluster.new replica) }
    ensures events { IfOk result (λ o.
        OptimizeEvents cluster.old replica o.names o.refused cluster.new) }
    ensures err { OnErr result (StopsAfter cluster.old cluster.new) }
    ensures keeps { KeepsUps cluster.old result cluster.new }
{
    // What always holds of a cluster is known here.
    cluster.drained_replicas_agree();
    if let Some(refusal) = sync_replica(alloc, cluster, replica)? {
        let (names, refused) = (List::empty(alloc), Some(refusal));
        return Ok(Optimization { names, refused });
    }
    let all = partitions(alloc, cluster.copy(replica), asked)?;
    let mut names = Vec::new(alloc);
    'partitions: for partition in &all {
        match optimize_partition(alloc, cluster, replica, *partition)? {
            Optimized::Name(name) => names.push(name)?,
            Optimized::Refused(refusal) => {
                let (names, refused) = (List::new(names), Some(refusal));
                return Ok(Optimization { names, refused });
            }
        }
    }
    let (names, refused) = (List::new(names), None);
    Ok(Optimization { names, refused })
}
