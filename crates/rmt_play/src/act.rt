//! Acts in their table at a replica.
ghost use Rattle.std.specs.Prelude.{◌≡◌, IfOk, OnOk};
ghost use Rattle.rmt_sql_acts.specs.Acts.{HasSmallCommand};
ghost use Rattle.rmt_state.specs.States.{IsNumber};
ghost use Rattle.rmt_acting.specs.Acting.{MayAct, GoesOn, KeepsShape};
ghost use Rattle.rmt_play.specs.ActSteps.{ExecutesIn, ExecutesThere, MayFetchFor};
ghost use Rattle.rmt_play.specs.Offered.{OffersAct};

use crate::insert::insert_in;
use crate::mutation::alter_in;
use crate::partition::{drop_in, optimize_in};
use crate::parts::{check_in, show_in};
use crate::refusing::{held_refusal, refuse_in};
use crate::select::{explain_in, read_in, read_with, sync_in};
use crate::system::{drain_in, restart_in, switch_in};
use crate::wait::wait_in;
use rmt_acting::Acting;
use rmt_reply::Line;
use rmt_statements::{Act, Mode};
use rmt_values::ReplicaId;
use std::alloc::{AllocError, Global};

/// Does an act in its table at a replica that is up, and may fetch where the act brings it up to date; or refuses it.
fn act_in<E: Acting>(
    alloc: Global,
    engine: &mut E,
    replica: ReplicaId,
    act: &Act,
) -> Result<Line, AllocError>
    requires here { IsNumber replica (E.seen engine.old).count }
    requires idle { MayAct (E.seen engine.old) replica }
    requires fetches { MayFetchFor (E.seen engine.old) replica act.now }
    requires small { HasSmallCommand act.now }
    requires offered { OffersAct E.offers act.now }
    ensures executes { IfOk result (λ line.
        ExecutesIn (E.seen engine.old) replica act.now line (E.seen engine.new)) }
    ensures goes_on { OnOk result (GoesOn (E.seen engine.old) (E.seen engine.new)) }
    ensures keeps { KeepsShape (E.seen engine.old) (E.seen engine.new) }
{
    match act {
        Act::Insert(insert) => insert_in(alloc, engine, replica, insert),
        Act::Select { query, mode, .. } => match mode {
            Mode::Sync => sync_in(alloc, engine, replica, query),
            Mode::Plain => read_in(alloc, engine, replica, query),
            Mode::Sequential(setting) => read_with(alloc, engine, replica, query, *setting),
        },
        Act::Explain { query, .. } => explain_in(alloc, engine, replica, query),
        Act::Mutate { command, .. } => alter_in(alloc, engine, command),
        Act::DropPartition { partition, .. } => drop_in(alloc, engine, replica, partition),
        Act::Optimize { partition, .. } => optimize_in(alloc, engine, replica, partition),
        Act::ShowParts { .. } => show_in(alloc, engine, replica),
        Act::CheckTable { .. } => check_in(alloc, engine, replica),
        Act::WaitMutation { id, .. } => wait_in(alloc, engine, replica, *id),
        Act::SyncReplica { .. } => drain_in(alloc, engine, replica),
        Act::RestartReplica { .. } => restart_in(alloc, engine, replica),
        Act::StopFetches { .. } => switch_in(alloc, engine, replica, false),
        Act::StartFetches { .. } => switch_in(alloc, engine, replica, true),
    }
}

/// Does an act in its table at a replica, or refuses it.
pub(crate) fn act_at<E: Acting>(
    alloc: Global,
    engine: &mut E,
    replica: ReplicaId,
    is_up: bool,
    act: &Act,
) -> Result<Line, AllocError>
    requires here { IsNumber replica (E.seen engine.old).count }
    requires up { (E.seen engine.old).ups replica ≡ is_up }
    requires free { (E.seen engine.old).free }
    requires small { HasSmallCommand act.now }
    requires offered { OffersAct E.offers act.now }
    ensures executes { IfOk result (λ line.
        ExecutesThere (E.seen engine.old) replica act.now line (E.seen engine.new)) }
    ensures goes_on { OnOk result (GoesOn (E.seen engine.old) (E.seen engine.new)) }
    ensures keeps { KeepsShape (E.seen engine.old) (E.seen engine.new) }
{
    match held_refusal(engine, replica, is_up, act) {
        Some(held) => refuse_in(alloc, engine, replica, act, held),
        None => act_in(alloc, engine, replica, act),
    }
}
