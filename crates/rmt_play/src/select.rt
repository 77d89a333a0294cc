//! SELECT and EXPLAIN in their table.
ghost use Rattle.std.specs.Prelude.{◌≡◌, ◌≤◌, ℕ, true, List as Bytes, IfOk, OnOk};
ghost use Rattle.std.specs.List.{All};
ghost use Rattle.rmt_values.specs.Rows.{Shape};
ghost use Rattle.rmt_partset.specs.Snapshots.{names_in, data_in, all_rows};
ghost use Rattle.rmt_query.specs.Answers.{answer_of};
ghost use Rattle.rmt_statements.specs.declared.act.Act.TheVariants as acts;
ghost use Rattle.rmt_statements.specs.declared.mode.Mode.TheVariants as modes;
ghost use Rattle.rmt_play.specs.ActRefusals.{refused_setting};
ghost use Rattle.rmt_state.specs.States.{IsNumber};
ghost use Rattle.rmt_acting.specs.Acting.{Brings, MayAct, GoesOn, Leaves, KeepsShape};
ghost use Rattle.rmt_acts.specs.StatementEvents.{SyncEvents};
ghost use Rattle.rmt_play.specs.ActEvents.{refusal_told};
ghost use Rattle.rmt_play.specs.SelectStatement.{Syncs, Reads};
ghost use Rattle.rmt_play.specs.QueryAnswers.{Selects, SelectsLast, SelectsWith, CountsGranules};
ghost use Rattle.rmt_play.specs.ActSteps.{ExecutesIn, ExecutesQuery};
ghost use Rattle.rmt_play.specs.ExplainStatement.{Explains};

use crate::names::names_of;
use crate::query::check;
use rmt_acting::Acting;
use rmt_list::List;
use rmt_names::PartName;
use rmt_partset::Snapshot;
use rmt_query::{Tuple, answer, explain};
use rmt_reply::{Granules, Line, Refusal};
use rmt_values::{CheckedQuery, Name, Query, ReplicaId, Schema};
use std::alloc::{AllocError, Global};

/// The parts that were read, and the answer over their rows.
#[derive(Drop)]
struct Selection {
    parts: List<PartName>,
    rows: List<Tuple>,
}

/// What a query answers over parts.
fn select_from(
    alloc: Global,
    schema: &Schema,
    snapshot: &Snapshot,
    query: &CheckedQuery,
) -> Result<Selection, AllocError>
    requires { All (λ part. part.rows.key ≡ schema.now.key) snapshot.now }
    ensures parts { IfOk result (λ s. s.parts ≡ names_in snapshot.now) }
    ensures rows { IfOk result (λ s.
        s.rows ≡ answer_of schema.now query.now (all_rows (data_in snapshot.now))) }
{
    let parts = names_of(alloc, snapshot.parts())?;
    let tuples = answer(alloc, snapshot, query, schema, &[])?;
    Ok(Selection {
        parts,
        rows: List::new(tuples),
    })
}

/// What a query answers over a replica's active parts.
fn select<E: Acting>(
    alloc: Global,
    engine: &mut E,
    replica: ReplicaId,
    query: &CheckedQuery,
) -> Result<Selection, AllocError>
    requires here { IsNumber replica (E.seen engine.old).count }
    requires up { (E.seen engine.old).ups replica ≡ true }
    ensures selects { IfOk result (λ s. Brings (E.seen engine.old)
        (Selects (E.seen engine.old).shape replica query.now s.parts s.rows) (E.seen engine.new)) }
    ensures leaves { Leaves (E.seen engine.old) (E.seen engine.new) }
    ensures keeps { KeepsShape (E.seen engine.old) (E.seen engine.new) }
{
    let snapshot = engine.read_parts(alloc, replica)?;
    let selection = select_from(alloc, engine.schema(), &snapshot, query)?;
    Ok(selection)
}

/// Brings the replica up to date and answers a query.
pub(crate) fn sync_in<E: Acting>(
    alloc: Global,
    engine: &mut E,
    replica: ReplicaId,
    query: &Query,
) -> Result<Line, AllocError>
    requires here { IsNumber replica (E.seen engine.old).count }
    requires idle { MayAct (E.seen engine.old) replica }
    requires fetches { (E.seen engine.old).fetching replica ≡ true }
    ensures executes { IfOk result (λ line. ExecutesQuery (E.seen engine.old) query.now
        (λ t. Syncs (E.seen engine.old).ups t replica query.now)
        (λ line. SyncEvents (E.seen engine.old).cluster replica (refusal_told line)) line (E.seen engine.new)) }
    ensures goes_on { OnOk result (GoesOn (E.seen engine.old) (E.seen engine.new)) }
    ensures keeps { KeepsShape (E.seen engine.old) (E.seen engine.new) }
{
    match check(alloc, query, engine.schema())? {
        Ok(query) => {
            if let Some(refusal) = engine.sync_replica(alloc, replica)? {
                return Ok(Line::Refused(refusal));
            }
            let tuples = engine.answer_up_to_date(alloc, replica, &query)?;
            Ok(Line::Rows(List::new(tuples)))
        }
        Err(refusal) => Ok(Line::Refused(refusal)),
    }
}

/// Answers a query over what the replica has.
pub(crate) fn read_in<E: Acting>(
    alloc: Global,
    engine: &mut E,
    replica: ReplicaId,
    query: &Query,
) -> Result<Line, AllocError>
    requires here { IsNumber replica (E.seen engine.old).count }
    requires up { (E.seen engine.old).ups replica ≡ true }
    ensures executes { IfOk result (λ line. ExecutesQuery (E.seen engine.old) query.now
        (λ t. Reads t replica query.now) (λ line c. c ≡ (E.seen engine.old).cluster) line (E.seen engine.new)) }
    ensures leaves { Leaves (E.seen engine.old) (E.seen engine.new) }
    ensures keeps { KeepsShape (E.seen engine.old) (E.seen engine.new) }
{
    match check(alloc, query, engine.schema())? {
        Ok(query) => {
            let selection = select(alloc, engine, replica, &query)?;
            let (parts, rows) = (selection.parts, selection.rows);
            Ok(Line::Read { parts, rows })
        }
        Err(refusal) => Ok(Line::Refused(refusal)),
    }
}

/// What a query answers over a replica's active parts that are in a quorum, or why it isn't answered.
fn select_in_quorum<E: Acting>(
    alloc: Global,
    engine: &mut E,
    replica: ReplicaId,
    query: &CheckedQuery,
) -> Result<Line, AllocError>
    requires here { IsNumber replica (E.seen engine.old).count }
    requires up { (E.seen engine.old).ups replica ≡ true }
    ensures selects { IfOk result (λ line. Brings (E.seen engine.old)
        (SelectsLast (E.seen engine.old).shape replica query.now line) (E.seen engine.new)) }
    ensures leaves { Leaves (E.seen engine.old) (E.seen engine.new) }
    ensures keeps { KeepsShape (E.seen engine.old) (E.seen engine.new) }
{
    match engine.read_in_quorum(alloc, replica)? {
        Ok(snapshot) => {
            let selection = select_from(alloc, engine.schema(), &snapshot, query)?;
            let (parts, rows) = (selection.parts, selection.rows);
            Ok(Line::Read { parts, rows })
        }
        Err(refusal) => Ok(Line::Refused(refusal)),
    }
}

/// The refusal of a SELECT's setting that is neither 0 nor 1.
pub(crate) fn setting_refusal(alloc: Global, setting: u128) -> Result<Option<Refusal>, AllocError>
    ensures { IfOk result (λ why. why ≡ refused_setting setting) }
{
    if setting <= 1 {
        return Ok(None);
    }
    let name = Name::from_slice(alloc, b"select_sequential_consistency")?;
    Ok(Some(Refusal::WrongType(name)))
}

/// Answers a query whose `select_sequential_consistency` is in range: with 1, over what is in a quorum.
fn read_checked<E: Acting>(
    alloc: Global,
    engine: &mut E,
    replica: ReplicaId,
    query: &CheckedQuery,
    setting: u128,
) -> Result<Line, AllocError>
    requires here { IsNumber replica (E.seen engine.old).count }
    requires up { (E.seen engine.old).ups replica ≡ true }
    requires setting { setting ≤ 1 }
    ensures selects { IfOk result (λ line. Brings (E.seen engine.old)
        (SelectsWith setting (E.seen engine.old).shape replica query.now line) (E.seen engine.new)) }
    ensures leaves { Leaves (E.seen engine.old) (E.seen engine.new) }
    ensures keeps { KeepsShape (E.seen engine.old) (E.seen engine.new) }
{
    if setting == 1 {
        return select_in_quorum(alloc, engine, replica, query);
    }
    let selection = select(alloc, engine, replica, query)?;
    let (parts, rows) = (selection.parts, selection.rows);
    Ok(Line::Read { parts, rows })
}

/// Answers a query with a number of `select_sequential_consistency`, or refuses to.
pub(crate) fn read_with<E: Acting>(
    alloc: Global,
    engine: &mut E,
    replica: ReplicaId,
    query: &Query,
    setting: u128,
) -> Result<Line, AllocError>
    requires here { IsNumber replica (E.seen engine.old).count }
    requires up { (E.seen engine.old).ups replica ≡ true }
    ensures executes { IfOk result (λ line. (table : Bytes ℕ) → ExecutesIn (E.seen engine.old) replica
        (acts.Select table query.now (modes.Sequential setting)) line (E.seen engine.new)) }
    ensures leaves { Leaves (E.seen engine.old) (E.seen engine.new) }
    ensures keeps { KeepsShape (E.seen engine.old) (E.seen engine.new) }
{
    let query = match check(alloc, query, engine.schema())? {
        Ok(query) => query,
        Err(refusal) => return Ok(Line::Refused(refusal)),
    };
    match setting_refusal(alloc, setting)? {
        Some(refusal) => Ok(Line::Refused(refusal)),
        None => read_checked(alloc, engine, replica, &query, setting),
    }
}

/// How many granules of a replica's active parts a query reads.
fn count_granules<E: Acting>(
    alloc: Global,
    engine: &mut E,
    replica: ReplicaId,
    query: &CheckedQuery,
) -> Result<Granules, AllocError>
    requires here { IsNumber replica (E.seen engine.old).count }
    requires up { (E.seen engine.old).ups replica ≡ true }
    ensures counts { IfOk result (λ all. Brings (E.seen engine.old)
        (CountsGranules replica query.now all) (E.seen engine.new)) }
    ensures leaves { Leaves (E.seen engine.old) (E.seen engine.new) }
    ensures keeps { KeepsShape (E.seen engine.old) (E.seen engine.new) }
{
    let snapshot = engine.read_parts(alloc, replica)?;
    let granules = explain(alloc, &snapshot, query, engine.schema())?;
    Ok(Granules::new(granules))
}

/// Counts the granules that a query reads of what the replica has.
pub(crate) fn explain_in<E: Acting>(
    alloc: Global,
    engine: &mut E,
    replica: ReplicaId,
    query: &Query,
) -> Result<Line, AllocError>
    requires here { IsNumber replica (E.seen engine.old).count }
    requires up { (E.seen engine.old).ups replica ≡ true }
    ensures executes { IfOk result (λ line. ExecutesQuery (E.seen engine.old) query.now
        (λ t. Explains t replica query.now) (λ line c. c ≡ (E.seen engine.old).cluster) line (E.seen engine.new)) }
    ensures leaves { Leaves (E.seen engine.old) (E.seen engine.new) }
    ensures keeps { KeepsShape (E.seen engine.old) (E.seen engine.new) }
{
    match check(alloc, query, engine.schema())? {
        Ok(query) => {
            let granules = count_granules(alloc, engine, replica, &query)?;
            Ok(Line::Granules(granules))
        }
        Err(refusal) => Ok(Line::Refused(refusal)),
    }
}
