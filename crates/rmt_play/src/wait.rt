//! WAIT MUTATION in its table.
ghost use Rattle.std.specs.Prelude.{◌≡◌, ℕ, true, List as Bytes, IfOk, OnOk};
ghost use Rattle.rmt_state.specs.States.{IsNumber};
ghost use Rattle.rmt_acting.specs.Acting.{MayAct, GoesOn, KeepsShape};
ghost use Rattle.rmt_statements.specs.declared.act.Act.TheVariants as acts;
ghost use Rattle.rmt_play.specs.ActSteps.{ExecutesIn};

use rmt_acting::Acting;
use rmt_reply::{Line, Refusal};
use rmt_values::ReplicaId;
use std::alloc::{AllocError, Global};

/// Waits for the mutation of an id, or refuses to.
pub(crate) fn wait_in<E: Acting>(
    alloc: Global,
    engine: &mut E,
    replica: ReplicaId,
    id: u128,
) -> Result<Line, AllocError>
    requires here { IsNumber replica (E.seen engine.old).count }
    requires idle { MayAct (E.seen engine.old) replica }
    requires fetches { (E.seen engine.old).fetching replica ≡ true }
    ensures executes { IfOk result (λ line. (table : Bytes ℕ)
        → ExecutesIn (E.seen engine.old) replica (acts.WaitMutation table id) line (E.seen engine.new)) }
    ensures goes_on { OnOk result (GoesOn (E.seen engine.old) (E.seen engine.new)) }
    ensures keeps { KeepsShape (E.seen engine.old) (E.seen engine.new) }
{
    if id >= u128::from(engine.mutations_made()) {
        return Ok(Line::Refused(Refusal::UnknownMutation(id)));
    }
    let id = id as u32;
    match engine.wait_for(alloc, replica, id)? {
        None => Ok(Line::Done(id)),
        Some(refusal) => Ok(Line::Refused(refusal)),
    }
}
