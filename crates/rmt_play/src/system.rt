//! SYSTEM SYNC REPLICA, RESTART REPLICA, STOP FETCHES and START FETCHES in their table.
ghost use Rattle.std.specs.Prelude.{◌≡◌, ℕ, true, List as Bytes, IfOk, OnOk};
ghost use Rattle.rmt_state.specs.States.{IsNumber};
ghost use Rattle.rmt_acting.specs.Acting.{MayAct, GoesOn, KeepsShape};
ghost use Rattle.rmt_statements.specs.declared.act.Act.TheVariants as acts;
ghost use Rattle.rmt_play.specs.ActSteps.{ExecutesIn, switch_act};

use rmt_acting::Acting;
use rmt_reply::Line;
use rmt_values::ReplicaId;
use std::alloc::{AllocError, Global};

/// Brings a replica up to date, or refuses to.
pub(crate) fn drain_in<E: Acting>(
    alloc: Global,
    engine: &mut E,
    replica: ReplicaId,
) -> Result<Line, AllocError>
    requires here { IsNumber replica (E.seen engine.old).count }
    requires idle { MayAct (E.seen engine.old) replica }
    requires fetches { (E.seen engine.old).fetching replica ≡ true }
    ensures executes { IfOk result (λ line. (table : Bytes ℕ)
        → ExecutesIn (E.seen engine.old) replica (acts.SyncReplica table) line (E.seen engine.new)) }
    ensures goes_on { OnOk result (GoesOn (E.seen engine.old) (E.seen engine.new)) }
    ensures keeps { KeepsShape (E.seen engine.old) (E.seen engine.new) }
{
    match engine.sync_replica(alloc, replica)? {
        None => Ok(Line::Okay),
        Some(refusal) => Ok(Line::Refused(refusal)),
    }
}

/// Begins a replica's session anew.
pub(crate) fn restart_in<E: Acting>(
    alloc: Global,
    engine: &mut E,
    replica: ReplicaId,
) -> Result<Line, AllocError>
    requires here { IsNumber replica (E.seen engine.old).count }
    requires idle { MayAct (E.seen engine.old) replica }
    ensures executes { IfOk result (λ line. (table : Bytes ℕ)
        → ExecutesIn (E.seen engine.old) replica (acts.RestartReplica table) line (E.seen engine.new)) }
    ensures goes_on { OnOk result (GoesOn (E.seen engine.old) (E.seen engine.new)) }
    ensures keeps { KeepsShape (E.seen engine.old) (E.seen engine.new) }
{
    engine.restart_replica(alloc, replica)?;
    Ok(Line::Okay)
}

/// Lets a replica fetch from now on, or stops its fetches.
pub(crate) fn switch_in<E: Acting>(
    alloc: Global,
    engine: &mut E,
    replica: ReplicaId,
    allowed: bool,
) -> Result<Line, AllocError>
    requires here { IsNumber replica (E.seen engine.old).count }
    requires idle { MayAct (E.seen engine.old) replica }
    ensures executes { IfOk result (λ line. (table : Bytes ℕ)
        → ExecutesIn (E.seen engine.old) replica (switch_act allowed table) line (E.seen engine.new)) }
    ensures goes_on { OnOk result (GoesOn (E.seen engine.old) (E.seen engine.new)) }
    ensures keeps { KeepsShape (E.seen engine.old) (E.seen engine.new) }
{
    engine.switch_fetches(alloc, replica, allowed)?;
    Ok(Line::Okay)
}
