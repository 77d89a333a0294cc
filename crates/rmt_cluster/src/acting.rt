//! What an event does, apart from being stored.
ghost use Rattle.std.specs.Prelude.{◌≡◌, ◌+◌, ◌<◌, ◌^◌, IfOk, OnErr};
ghost use Rattle.rmt_supply.specs.PartSources.{AreSmall};
ghost use Rattle.rmt_cluster.specs.Acting.{ActsWith, KeepsAccepted, SuitAttempts};
ghost use Rattle.rmt_cluster.specs.Clusters.{MayAct, AfterError};

use crate::attempts::Attempts;
use crate::{entries, inserts};
use rmt_event_log::copy_command;
use rmt_events::{Event, Reply};
use rmt_state::State;
use std::alloc::{AllocError, Global};

/// Does an event to a state and its open attempts. At an error no memory was left.
pub(crate) fn act(
    alloc: Global,
    state: &mut State,
    attempts: &mut Attempts,
    event: &Event,
) -> Result<Reply, AllocError>
    requires may { MayAct state.old event.now }
    requires suit { SuitAttempts state.old attempts.old }
    requires accepted { KeepsAccepted state.old }
    requires small { AreSmall state.old.replicas }
    requires few { attempts.old.made + 1 < 2 ^ 32 }
    ensures ok { IfOk result (λ reply. ActsWith state.old attempts.old event.now reply state.new attempts.new) }
    ensures err { OnErr result (AfterError state.old attempts.old event.now state.new attempts.new) }
{
    match event {
        Event::Allocate {
            replica,
            block,
            need,
        } => inserts::allocate(alloc, state, attempts, *replica, block, *need),
        Event::Again { attempt } => inserts::again(alloc, state, attempts, *attempt),
        Event::Stage { attempt } => inserts::stage(state, attempts, *attempt),
        Event::Commit { attempt } => inserts::commit(alloc, state, attempts, *attempt),
        Event::Abandon { attempt } => inserts::abandon(alloc, state, attempts, *attempt),
        Event::Pull { replica } => state.pull(alloc, *replica),
        Event::Apply { replica, entry } => entries::apply(alloc, state, *replica, *entry),
        Event::Merge { replica, sources } => state.merge(alloc, *replica, sources.as_slice()),
        Event::Mutate { replica, old, upto } => state.mutate(alloc, *replica, old, *upto),
        Event::CreateMutation { command } => {
            state.create_mutation(alloc, copy_command(alloc, command)?)
        }
        Event::DropPartition { partition } => state.drop_partition(alloc, *partition),
        Event::Kill { replica } => {
            state.kill(*replica);
            Ok(Reply::Done)
        }
        Event::Restart { replica } => {
            state.restart(alloc, *replica)?;
            Ok(Reply::Done)
        }
        Event::Note { replica } => state.note(alloc, *replica),
        Event::Fetches { replica, allowed } => {
            state.set_fetches(*replica, *allowed);
            Ok(Reply::Done)
        }
    }
}
