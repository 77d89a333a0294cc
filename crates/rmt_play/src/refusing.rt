//! Acts that are sent to a replica that is down, or that may not fetch what would bring it up to date.
ghost use Rattle.std.specs.Prelude.{◌≡◌, ℕ, List as Bytes, IfOk};
ghost use Rattle.rmt_statements.specs.declared.act.Act.TheVariants as acts;
ghost use Rattle.std.specs.declared.option.Option.TheVariants.{Some};
ghost use Rattle.rmt_state.specs.States.{IsNumber};
ghost use Rattle.rmt_play.specs.ActSteps.{ExecutesThere, held_refusal as refusal_held};
ghost use Rattle.rmt_play.specs.PlayerSteps.{IsOwnRefusal};

use crate::forms::syncs_first;
use crate::insert::rows_to_insert;
use crate::mutation::check as check_command;
use crate::partition::{partition_asked, partition_in};
use crate::query::check as check_query;
use crate::select::setting_refusal;
use rmt_acting::Acting;
use rmt_reply::{Line, Refusal};
use rmt_statements::{Act, Mode};
use rmt_values::{Query, ReplicaId, Schema};
use std::alloc::{AllocError, Global};

/// The refusal of a SELECT in a table of this schema, whatever replica it is sent to, where there is one.
fn select_refusal(
    alloc: Global,
    query: &Query,
    mode: Mode,
    schema: &Schema,
) -> Result<Option<Refusal>, AllocError>
    ensures { IfOk result (λ why. (table : Bytes ℕ)
        → IsOwnRefusal schema.now (acts.Select table query.now mode) why) }
{
    if let Err(refusal) = check_query(alloc, query, schema)? {
        return Ok(Some(refusal));
    }
    match mode {
        Mode::Sequential(setting) => setting_refusal(alloc, setting),
        Mode::Plain | Mode::Sync => Ok(None),
    }
}

/// The refusal of an act in a table of this schema, whatever replica it is sent to, where there is one.
fn own_refusal(alloc: Global, schema: &Schema, act: &Act) -> Result<Option<Refusal>, AllocError>
    ensures { IfOk result (IsOwnRefusal schema.now act.now) }
{
    match act {
        Act::Insert(insert) => Ok(rows_to_insert(alloc, insert, schema)?.err()),
        Act::Select { query, mode, .. } => select_refusal(alloc, query, *mode, schema),
        Act::Explain { query, .. } => Ok(check_query(alloc, query, schema)?.err()),
        Act::Mutate { command, .. } => Ok(check_command(alloc, command, schema)?.err()),
        Act::DropPartition { partition, .. } => Ok(partition_in(alloc, partition, schema)?.err()),
        Act::Optimize { partition, .. } => Ok(partition_asked(alloc, partition, schema)?.err()),
        _ => Ok(None),
    }
}

/// Why an act is refused at a replica, whatever it asks for, where there is a cause.
pub(crate) fn held_refusal<E: Acting>(
    engine: &E,
    replica: ReplicaId,
    is_up: bool,
    act: &Act,
) -> Option<Refusal>
    requires here { IsNumber replica (E.seen engine.now).count }
    requires up { (E.seen engine.now).ups replica ≡ is_up }
    ensures { result ≡ refusal_held (E.seen engine.now) replica act.now }
{
    if !is_up {
        return Some(Refusal::ReplicaDown(replica));
    }
    if syncs_first(act) && !engine.may_fetch(replica) {
        return Some(Refusal::FetchesStopped(replica));
    }
    None
}

/// Refuses an act in its table: for its own cause, where it has one, or for the one that its replica has.
pub(crate) fn refuse_in<E: Acting>(
    alloc: Global,
    engine: &E,
    replica: ReplicaId,
    act: &Act,
    held: Refusal,
) -> Result<Line, AllocError>
    requires held { refusal_held (E.seen engine.now) replica act.now ≡ Some held }
    ensures { IfOk result (λ line. ExecutesThere (E.seen engine.now) replica act.now line (E.seen engine.now)) }
{
    match own_refusal(alloc, engine.schema(), act)? {
        Some(refusal) => Ok(Line::Refused(refusal)),
        None => Ok(Line::Refused(held)),
    }
}
