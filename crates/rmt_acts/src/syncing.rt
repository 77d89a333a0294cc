//! A replica is brought up to date.
ghost use Rattle.std.specs.Prelude.{◌≡◌, ◌≢◌, true, length, IfOk, OnOk, OnErr};
ghost use Rattle.rmt_state.specs.States.{IsNumber};
ghost use Rattle.std.specs.declared.result.Result.TheVariants.{Err as Stopped};
ghost use Rattle.rmt_cluster.specs.Syncs.{SyncsTo};
ghost use Rattle.rmt_cluster.specs.declared.sync_error.SyncError.TheVariants.{ReplicaDown, FetchesStopped, Memory};
ghost use Rattle.rmt_statement_model.specs.Shows.{IsIdle, KeepsUps, fetching_of};
ghost use Rattle.rmt_acts.specs.StatementEvents.{CatchesUp, SyncEvents};
ghost use Rattle.rmt_acts.specs.Syncing.{HasDoneGets, IsSynced, IsToldAs, KeepsButQuorum, SyncsReplica};

use rmt_cluster::{Cluster, SyncError};
use rmt_reply::Refusal;
use rmt_values::ReplicaId;
use std::alloc::{AllocError, Global};

/// The refusal of a statement whose sync ended so, at a replica that is up and may fetch.
fn refusal_of(error: &SyncError) -> Result<Option<Refusal>, AllocError>
    requires up { error.now ≢ ReplicaDown }
    requires fetches { error.now ≢ FetchesStopped }
    ensures { IsToldAs error.now result }
{
    match error {
        SyncError::NoSource { part, replica } => Ok(Some(Refusal::NoSource {
            part: *part,
            replica: *replica,
        })),
        SyncError::Memory => Err(AllocError),
        SyncError::ReplicaDown => unreachable!(),
        SyncError::FetchesStopped => unreachable!(),
    }
}

/// Brings a replica up to date that may fetch: every place of the log is known there, and it is noted where a part waits for its
/// quorum. Or gives the refusal, where it lacks a part whose source is down, and which no replica that is up has; what stands
/// before it in the log is known then. At an error no memory was left, and what was done of the log stays done.
pub fn sync_replica(
    alloc: Global,
    cluster: &mut Cluster,
    replica: ReplicaId,
) -> Result<Option<Refusal>, AllocError>
    requires here { IsNumber replica (length cluster.old.replicas) }
    requires idle { IsIdle cluster.old replica }
    requires fetches { fetching_of cluster.old replica ≡ true }
    ensures syncs { IfOk result (λ refused. SyncsReplica cluster.old replica refused cluster.new) }
    ensures table { IfOk result (λ _. KeepsButQuorum cluster.old cluster.new) }
    ensures idle { IfOk result (λ _. IsIdle cluster.new replica) }
    ensures events { IfOk result (λ refused. SyncEvents cluster.old replica refused cluster.new) }
    ensures err { OnErr result (SyncsTo cluster.old replica (Stopped Memory) cluster.new) }
    ensures keeps { KeepsUps cluster.old result cluster.new }
{
    // What always holds of a cluster is known here.
    cluster.drained_replicas_agree();
    match cluster.sync(alloc, replica) {
        Ok(()) => Ok(None),
        Err(error) => refusal_of(&error),
    }
}

/// Brings a replica up to date that may fetch, and has done each Get of the log. At an error no memory was left, and what was done of the log
/// stays done.
pub(crate) fn catch_up(
    alloc: Global,
    cluster: &mut Cluster,
    replica: ReplicaId,
) -> Result<(), AllocError>
    requires here { IsNumber replica (length cluster.old.replicas) }
    requires idle { IsIdle cluster.old replica }
    requires gets { HasDoneGets cluster.old replica }
    ensures syncs { OnOk result (IsSynced cluster.old replica cluster.new) }
    ensures table { OnOk result (KeepsButQuorum cluster.old cluster.new) }
    ensures idle { OnOk result (IsIdle cluster.new replica) }
    ensures events { OnOk result (CatchesUp cluster.old replica cluster.new) }
    ensures err { OnErr result (SyncsTo cluster.old replica (Stopped Memory) cluster.new) }
    ensures keeps { KeepsUps cluster.old result cluster.new }
{
    // What always holds of a cluster is known here.
    cluster.drained_replicas_agree();
    match cluster.sync(alloc, replica) {
        Ok(()) => Ok(()),
        Err(SyncError::Memory) => Err(AllocError),
        Err(SyncError::ReplicaDown) => unreachable!(),
        Err(SyncError::FetchesStopped) => unreachable!(),
        Err(SyncError::NoSource { .. }) => unreachable!(),
    }
}
