//! A replica does an entry of its copy of the log.
ghost use Rattle.std.specs.Prelude.{◌≡◌, IfOk, OnErr};
ghost use Rattle.rmt_events.specs.declared.event.Event.TheVariants as ev;
ghost use Rattle.rmt_table.specs.TableTrees.{IsReplica};
ghost use Rattle.rmt_supply.specs.PartSources.{AreSmall};
ghost use Rattle.rmt_state.specs.States.{Acts};
ghost use Rattle.rmt_cluster.specs.Acting.{KeepsAccepted};

use crate::causes::apply_reply;
use rmt_events::{Reply, StepRefused};
use rmt_state::State;
use rmt_supply::{Found, find};
use rmt_values::ReplicaId;
use std::alloc::{AllocError, Global};

/// A replica does the entry at a place of its copy, in any order: with the part of its own staged block or of its active parts,
/// or with that of the lowest-numbered other live replica that holds the block. At an error no memory was left, and nothing
/// changed.
pub(crate) fn apply(
    alloc: Global,
    state: &mut State,
    replica: ReplicaId,
    entry: u32,
) -> Result<Reply, AllocError>
    requires here { IsReplica state.old.tree replica }
    requires accepted { KeepsAccepted state.old }
    requires small { AreSmall state.old.replicas }
    ensures ok { IfOk result (λ reply. Acts state.old (ev.Apply replica entry) reply state.new) }
    ensures err { OnErr result (state.new ≡ state.old) }
{
    let at = usize::from(replica) - 1;
    let i = entry as usize;
    state.sound();
    let worker = &state.replicas()[at];
    if !worker.is_up() {
        return Ok(Reply::Refused(StepRefused::Down));
    }
    if i >= worker.copy().len() {
        return Ok(Reply::Refused(StepRefused::NotLive));
    }
    let supply = match find(alloc, state.replicas(), at, i, state.tree().schema())? {
        Found::Ready(supply) => supply,
        Found::Stopped => return Ok(Reply::Refused(StepRefused::FetchesStopped)),
        Found::Missing(part) => return Ok(Reply::Refused(StepRefused::NeedsPart(part))),
    };
    apply_reply(state.apply(replica, i, supply))
}
