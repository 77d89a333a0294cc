//! WAIT MUTATION.
ghost use Rattle.std.specs.Prelude.{◌≡◌, ◌<◌, true, length, IfOk, OnErr};
ghost use Rattle.rmt_model.specs.Words.{Has};
ghost use Rattle.rmt_model.specs.Live.{live};
ghost use Rattle.rmt_model.specs.Lawful.{mutation_count};
ghost use Rattle.rmt_state.specs.States.{IsNumber};
ghost use Rattle.rmt_events.specs.LogEvents.{IsMutable};
ghost use Rattle.rmt_statement_model.specs.Shows.{IsIdle, IsUpToDate, KeepsUps, fetching_of};
ghost use Rattle.rmt_acts.specs.StatementEvents.{MutatesOnce, StopsAfter, WaitEvents};
ghost use Rattle.rmt_acts.specs.Waiting.{MutatesOne, MutatesSome, Settles, WaitsTo};

use crate::syncing::{catch_up, sync_replica};
use rmt_cluster::Cluster;
use rmt_events::{Event, Reply, StepRefused};
use rmt_live_names::place_of;
use rmt_names::PartName;
use rmt_reply::Refusal;
use rmt_values::ReplicaId;
use std::alloc::{AllocError, Global};

/// Mutates a part up to the mutation at a place, and brings the replica up to date; or gives the refusal, where one more
/// entry would pass a limit.
fn mutate_part(
    alloc: Global,
    cluster: &mut Cluster,
    replica: ReplicaId,
    old: PartName,
    upto: u32,
) -> Result<Option<Refusal>, AllocError>
    requires here { IsNumber replica (length cluster.old.replicas) }
    requires idle { IsIdle cluster.old replica }
    requires whole { IsUpToDate cluster.old replica }
    requires mutable { IsMutable cluster.old.table.log old upto }
    ensures mutates { IfOk result (λ refused. MutatesOne cluster.old replica old upto refused cluster.new) }
    ensures idle { IfOk result (λ _. IsIdle cluster.new replica) }
    ensures events { IfOk result (λ _. MutatesOnce replica cluster.old cluster.new) }
    ensures err { OnErr result (StopsAfter cluster.old cluster.new) }
    ensures keeps { KeepsUps cluster.old result cluster.new }
{
    let reply = cluster.step(alloc, Event::Mutate { replica, old, upto })?;
    match reply {
        Reply::Entry(_) => {
            catch_up(alloc, cluster, replica)?;
            Ok(None)
        }
        Reply::Refused(why) => match why {
            StepRefused::LimitReached { limit, value } => {
                Ok(Some(Refusal::LimitReached { limit, value }))
            }
            _ => unreachable!(),
        },
        _ => unreachable!(),
    }
}

/// Mutates a live part up to the last mutation that is pending for it and isn't past a place, where there is one; or gives the
/// refusal, where one more entry would pass a limit.
fn settle_part(
    alloc: Global,
    cluster: &mut Cluster,
    replica: ReplicaId,
    part: PartName,
    place: usize,
) -> Result<Option<Refusal>, AllocError>
    requires here { IsNumber replica (length cluster.old.replicas) }
    requires idle { IsIdle cluster.old replica }
    requires whole { IsUpToDate cluster.old replica }
    requires is_live { Has (live cluster.old.table.log) part }
    requires below { place < length cluster.old.table.log }
    ensures settles { IfOk result (λ refused. Settles cluster.old replica part place refused cluster.new) }
    ensures idle { IfOk result (λ _. IsIdle cluster.new replica) }
    ensures events { IfOk result (λ _. MutatesSome cluster.old replica cluster.new) }
    ensures err { OnErr result (StopsAfter cluster.old cluster.new) }
    ensures keeps { KeepsUps cluster.old result cluster.new }
{
    // What always holds of a cluster is known here.
    cluster.drained_replicas_agree();
    cluster.state().tree().no_limit_is_passed();
    let Some(last) = cluster.copy(replica).last_pending(&part, place + 1) else {
        return Ok(None);
    };
    mutate_part(alloc, cluster, replica, part, last as u32)
}

/// Waits for a mutation at a replica that may fetch: one after the other, the live parts for which it, or one before it, is pending are
/// mutated up to the last such one, the replica brought up to date before and after each. It ends at the first part for which
/// one more entry would pass a limit, with that refusal, or before all where the replica lacks a part whose source is down; what
/// was mutated stays so. At an error no memory was left, and what was done stays done.
pub fn wait_for(
    alloc: Global,
    cluster: &mut Cluster,
    replica: ReplicaId,
    id: u32,
) -> Result<Option<Refusal>, AllocError>
    requires here { IsNumber replica (length cluster.old.replicas) }
    requires idle { IsIdle cluster.old replica }
    requires fetches { fetching_of cluster.old replica ≡ true }
    requires known { id < mutation_count cluster.old.table.log }
    ensures waits { IfOk result (λ refused. WaitsTo cluster.old replica id refused cluster.new) }
    ensures idle { IfOk result (λ _. IsIdle cluster.new replica) }
    ensures events { IfOk result (λ refused. WaitEvents cluster.old replica refused cluster.new) }
    ensures err { OnErr result (StopsAfter cluster.old cluster.new) }
    ensures keeps { KeepsUps cluster.old result cluster.new }
{
    if let Some(lacking) = sync_replica(alloc, cluster, replica)? {
        return Ok(Some(lacking));
    }
    // What always holds of a cluster is known here.
    cluster.drained_replicas_agree();
    let place = place_of(cluster.copy(replica), id);
    let parts = Vec::from_slice(alloc, cluster.copy(replica).live())?;
    'parts: for part in &parts {
        // What always holds of a cluster is known here.
        cluster.drained_replicas_agree();
        if let Some(refusal) = settle_part(alloc, cluster, replica, *part, place)? {
            return Ok(Some(refusal));
        }
    }
    cluster.drained_replicas_agree();
    Ok(None)
}
