//! Events as plain data, which constants hold.
ghost use Rattle.std.specs.Prelude.{IfOk, OnOk, length};
ghost use Rattle.rmt_state.specs.States.{IsNumber};
ghost use Rattle.rmt_cluster.specs.Clusters.{MayStep};

use crate::answers::Answer;
use crate::blocks::block_of;
use crate::commands::command_of;
use crate::parts::Part;
use crate::rows::Numbers;
use rmt_cluster::Cluster;
use rmt_events::Event;
use rmt_list::List;
use rmt_names::PartitionId;
use rmt_values::ReplicaId;
use std::alloc::{AllocError, Global};
use std::test::Fail;

/// An event. Attempts are numbered from 0, replicas from 1.
#[derive(Clone, Copy)]
pub(crate) enum Move {
    /// An attempt to insert a block of these rows begins at a replica.
    Allocate(ReplicaId, Numbers),
    /// An attempt whose lock is gone gets another number.
    Again(u32),
    /// The attempt's block is staged.
    Stage(u32),
    /// The block is accepted.
    Commit(u32),
    /// The attempt ends.
    Abandon(u32),
    /// A replica copies the rest of the log.
    Pull(ReplicaId),
    /// A replica does the entry at a place.
    Apply(ReplicaId, u32),
    /// A replica assigns the merge of two parts.
    Merge(ReplicaId, Part, Part),
    /// A replica assigns the mutation of a part up to the one at a place.
    Mutate(ReplicaId, Part, u32),
    /// A command, as a statement.
    Create(&'static str),
    /// A partition is dropped.
    Drop(PartitionId),
    /// A replica's session ends.
    Kill(ReplicaId),
    /// A replica's session begins anew.
    Restart(ReplicaId),
}

/// Does an event. Where no memory was left for it, it is done once more: then it comes as if nothing had been refused.
pub(crate) fn step(cluster: &mut Cluster, alloc: Global, next: Move) -> Result<Answer, Fail> {
    if let Some(answer) = tried(cluster, alloc, next)? {
        return Ok(answer);
    }
    match tried(cluster, alloc, next)? {
        Some(answer) => Ok(answer),
        None => Err("no memory twice".into()),
    }
}

/// Tries to do an event; none where no memory was left for it.
fn tried(cluster: &mut Cluster, alloc: Global, next: Move) -> Result<Option<Answer>, Fail> {
    let event = event_of(cluster, alloc, next)?;
    match cluster.step(alloc, event) {
        Ok(reply) => Ok(Some(Answer::of(reply)?)),
        Err(AllocError) => Ok(None),
    }
}

/// Whether the cluster has a replica.
pub(crate) fn has_replica(cluster: &Cluster, replica: ReplicaId) -> Result<(), Fail>
    ensures { OnOk result (IsNumber replica (length cluster.now.replicas)) }
{
    let count = cluster.state().replicas().len();
    if replica == 0 || usize::from(replica) > count {
        return Err("no such replica".into());
    }
    Ok(())
}

/// The event, where the cluster takes it.
fn event_of(cluster: &Cluster, alloc: Global, next: Move) -> Result<Event, Fail>
    ensures { IfOk result (MayStep cluster.now) }
{
    match next {
        Move::Allocate(replica, rows) => allocation(cluster, alloc, replica, rows),
        Move::Again(attempt) => Ok(Event::Again { attempt }),
        Move::Stage(attempt) => Ok(Event::Stage { attempt }),
        Move::Commit(attempt) => Ok(Event::Commit { attempt }),
        Move::Abandon(attempt) => Ok(Event::Abandon { attempt }),
        Move::Merge(replica, first, second) => merge_of(cluster, alloc, replica, first, second),
        Move::Mutate(replica, old, upto) => mutate_of(cluster, replica, old, upto),
        Move::Create(script) => mutation(cluster, alloc, script),
        Move::Drop(partition) => Ok(Event::DropPartition { partition }),
        _ => event_at(cluster, next),
    }
}

/// An event of one replica by itself.
fn event_at(cluster: &Cluster, next: Move) -> Result<Event, Fail>
    ensures { IfOk result (MayStep cluster.now) }
{
    match next {
        Move::Pull(replica) => {
            has_replica(cluster, replica)?;
            Ok(Event::Pull { replica })
        }
        Move::Apply(replica, entry) => {
            has_replica(cluster, replica)?;
            Ok(Event::Apply { replica, entry })
        }
        Move::Kill(replica) => {
            has_replica(cluster, replica)?;
            Ok(Event::Kill { replica })
        }
        Move::Restart(replica) => {
            has_replica(cluster, replica)?;
            Ok(Event::Restart { replica })
        }
        _ => Err("no event of one replica".into()),
    }
}

/// The beginning of an attempt.
fn allocation(
    cluster: &Cluster,
    alloc: Global,
    replica: ReplicaId,
    rows: Numbers,
) -> Result<Event, Fail>
    ensures { IfOk result (MayStep cluster.now) }
{
    has_replica(cluster, replica)?;
    let block = block_of(alloc, cluster.state().tree().schema(), rows)?;
    Ok(Event::Allocate {
        replica,
        block,
        need: 0,
    })
}

/// The merge of two parts.
fn merge_of(
    cluster: &Cluster,
    alloc: Global,
    replica: ReplicaId,
    first: Part,
    second: Part,
) -> Result<Event, Fail>
    ensures { IfOk result (MayStep cluster.now) }
{
    has_replica(cluster, replica)?;
    let (first, second) = (first.name()?, second.name()?);
    let sources = List::new(vec![in alloc; first, second]?);
    Ok(Event::Merge { replica, sources })
}

/// The mutation of a part.
fn mutate_of(cluster: &Cluster, replica: ReplicaId, old: Part, upto: u32) -> Result<Event, Fail>
    ensures { IfOk result (MayStep cluster.now) }
{
    has_replica(cluster, replica)?;
    let old = old.name()?;
    Ok(Event::Mutate { replica, old, upto })
}

/// A command of a client.
fn mutation(cluster: &Cluster, alloc: Global, script: &str) -> Result<Event, Fail>
    ensures { IfOk result (MayStep cluster.now) }
{
    let command = command_of(alloc, cluster.state().tree().schema(), script)?;
    Ok(Event::CreateMutation { command })
}
