//! INSERT in its table.
ghost use Rattle.std.specs.Prelude.{◌≡◌, ◌≢◌, ◌<◌, ◌^◌, None, true, false, IfOk, IfErr, OnOk};
ghost use Rattle.std.specs.List.{All};
ghost use Rattle.rmt_values.specs.Rows.{fits};
ghost use Rattle.rmt_block.specs.Splits.{IsSplit};
ghost use Rattle.rmt_state.specs.States.{IsNumber};
ghost use Rattle.rmt_acting.specs.Acting.{Brings, MayAct, GoesOn, KeepsShape};
ghost use Rattle.rmt_statement_model.specs.Inserts.{asked_at};
ghost use Rattle.rmt_play.specs.ActRefusals.{refused_quorum};
ghost use Rattle.rmt_columns.specs.RowsByColumn.{kinds_in};
ghost use Rattle.rmt_statements.specs.declared.act.Act.TheVariants as acts;
ghost use Rattle.rmt_play.specs.ActEvents.{InsertsBy};
ghost use Rattle.rmt_play.specs.InsertStatement.{InsertsRows, need_of};
ghost use Rattle.rmt_play.specs.Offered.{OffersAct, OffersRows};
ghost use Rattle.rmt_play.specs.PlayerSteps.{HasRows, RefusesRows};
ghost use Rattle.rmt_play.specs.ActSteps.{ExecutesIn};

use rmt_acting::Acting;
use rmt_block::{Block, split};
use rmt_columns::Rows;
use rmt_reply::{Line, Refusal};
use rmt_sql_rows::{RowsError, rows_of};
use rmt_statements::Insert;
use rmt_values::{Name, ReplicaId, Schema};
use std::alloc::{AllocError, Global};

/// The refusal of the number of replicas that an INSERT asks for, where it is out of range.
fn quorum_refusal(alloc: Global, quorum: Option<u128>) -> Result<Option<Refusal>, AllocError>
    ensures { IfOk result (λ why. why ≡ refused_quorum quorum) }
{
    match quorum {
        Some(count) if count >= 1 << 32 => {
            let name = Name::from_slice(alloc, b"insert_quorum")?;
            Ok(Some(Refusal::WrongType(name)))
        }
        _ => Ok(None),
    }
}

/// The rows of an INSERT, or why they are refused.
pub(crate) fn rows_to_insert(
    alloc: Global,
    insert: &Insert,
    schema: &Schema,
) -> Result<Result<Rows, Refusal>, AllocError>
    ensures ok { IfOk result (λ found. IfOk found (λ rows.
        HasRows schema.now insert.now rows.rows)) }
    ensures kinds { IfOk result (λ found. IfOk found (λ rows. rows.kinds ≡ kinds_in schema.now.columns)) }
    ensures refused { IfOk result (λ found. IfErr found (RefusesRows schema.now insert.now)) }
{
    let setting = quorum_refusal(alloc, insert.quorum)?;
    match (rows_of(alloc, insert, schema), setting) {
        (Err(RowsError::UnknownColumn(name)), _) => Ok(Err(Refusal::UnknownColumn(name))),
        (Err(RowsError::DoubleColumn(name)), _) => Ok(Err(Refusal::DoubleColumn(name))),
        (Err(RowsError::Memory), _) => Err(AllocError),
        (Ok(_) | Err(RowsError::BadRow(_)), Some(refusal)) => Ok(Err(refusal)),
        (Ok(rows), None) => Ok(Ok(rows)),
        (Err(RowsError::BadRow(row)), None) => Ok(Err(Refusal::BadRow(row))),
    }
}

/// How many replicas an INSERT asks for whose number is in range; fewer than 2 ask for no quorum.
fn asked(quorum: Option<u128>) -> u32
    requires { refused_quorum quorum ≡ None }
    ensures asked { result ≡ need_of quorum }
    ensures some { result ≢ 1 }
{
    match quorum {
        Some(count) if count >= 2 => count as u32,
        _ => 0,
    }
}

/// The blocks of rows. No memory has more rows than a block can count.
fn blocks_of(alloc: Global, rows: Rows, schema: &Schema) -> Result<Vec<Block>, AllocError>
    requires fit { All (λ row. fits schema.now.columns row ≡ true) rows.rows }
    requires kinds { rows.kinds ≡ kinds_in schema.now.columns }
    ensures split { IfOk result (λ blocks. IsSplit schema.now rows.rows blocks.items) }
{
    if u32::try_from(rows.len()).is_err() {
        return Err(AllocError);
    }
    split(alloc, rows, schema)
}

/// Inserts rows: a block for each partition.
fn insert_rows<E: Acting>(
    alloc: Global,
    engine: &mut E,
    replica: ReplicaId,
    rows: Rows,
    need: u32,
) -> Result<Line, AllocError>
    requires here { IsNumber replica (E.seen engine.old).count }
    requires idle { MayAct (E.seen engine.old) replica }
    requires need { need ≢ 1 }
    requires fit { All (λ row. fits (E.seen engine.old).shape.columns row ≡ true) rows.rows }
    requires kinds { rows.kinds ≡ kinds_in (E.seen engine.old).shape.columns }
    requires offered { OffersRows E.offers (E.seen engine.old).shape rows.rows }
    ensures inserts { IfOk result (λ line. Brings (E.seen engine.old)
        (λ t. InsertsRows E.workers (E.seen engine.old).ups t (asked_at replica need) rows.rows line)
        (E.seen engine.new)) }
    ensures events { E.workers ≡ false → IfOk result (λ line. InsertsBy (E.seen engine.old).cluster
        (asked_at replica need) line (E.seen engine.new).cluster) }
    ensures goes_on { OnOk result (GoesOn (E.seen engine.old) (E.seen engine.new)) }
    ensures keeps { KeepsShape (E.seen engine.old) (E.seen engine.new) }
{
    let blocks = blocks_of(alloc, rows, engine.schema())?;
    let insertion = engine.insert_blocks(alloc, replica, blocks, need)?;
    let (pieces, refused) = (insertion.pieces, insertion.refused);
    Ok(Line::Inserted { pieces, refused })
}

/// Inserts the rows of an INSERT, or refuses them.
pub(crate) fn insert_in<E: Acting>(
    alloc: Global,
    engine: &mut E,
    replica: ReplicaId,
    insert: &Insert,
) -> Result<Line, AllocError>
    requires here { IsNumber replica (E.seen engine.old).count }
    requires idle { MayAct (E.seen engine.old) replica }
    requires offered { OffersAct E.offers (acts.Insert insert.now) }
    ensures executes { IfOk result (λ line.
        ExecutesIn (E.seen engine.old) replica (acts.Insert insert.now) line (E.seen engine.new)) }
    ensures goes_on { OnOk result (GoesOn (E.seen engine.old) (E.seen engine.new)) }
    ensures keeps { KeepsShape (E.seen engine.old) (E.seen engine.new) }
{
    match rows_to_insert(alloc, insert, engine.schema())? {
        Ok(rows) => insert_rows(alloc, engine, replica, rows, asked(insert.quorum)),
        Err(refusal) => Ok(Line::Refused(refusal)),
    }
}
