ghost use Rattle.std.specs.Prelude.{◌≡◌, ◌≢◌, ◌<◌, ⊤, true, length, map, IfOk};
ghost use Rattle.std.specs.List.{All};
ghost use Rattle.std.specs.Arc.{arc_value};
ghost use Rattle.rmt_values.specs.Rows.{fits};
ghost use Rattle.rmt_events.specs.Views.{Block as AnyBlock};
ghost use Rattle.rmt_shared.specs.SharedTables.{name_at, named};
ghost use Rattle.rmt_workers.specs.Closing.{AreAtRest};

use super::*;
use rmt_block::Block;
use rmt_columns::Rows;
use rmt_known::KnownTable;
use rmt_outside::Open;
use rmt_pass::Pass;
use rmt_reply::Piece;
use rmt_shared::Naming;
use rmt_state::State;
use rmt_values::{Column, Kind, Name, Row as ValueRow, Schema, Value};
use std::alloc::{AllocError, Global};
use std::marker::Brand;
use std::sync::ledger::Blank;
use std::sync::{Arc, Wait};
use std::test::Fail;

/// The only column, `c` of UInt64, which is the key.
fn column_of(alloc: Global) -> Result<(Vec<Column>, Vec<Name>), AllocError> {
    let name = Name::from_slice(alloc, b"c")?;
    let key = Name::from_slice(alloc, b"c")?;
    let kind = Kind::UInt64;
    let columns = vec![in alloc; Column { name, kind }]?;
    let names = vec![in alloc; key]?;
    Ok((columns, names))
}

fn schema_of(alloc: Global) -> Result<Arc<Schema, Global>, Fail> {
    let (columns, key) = column_of(alloc)?;
    let Ok(schema) = Schema::new(alloc, columns, key, None, 2, 100) else {
        return Err("no schema".into());
    };
    let shared = Arc::new(alloc, schema)?;
    Ok(shared)
}

/// A block of one row, of a number.
fn block_of(alloc: Global, schema: &Schema, number: u64) -> Result<Arc<Block, Global>, Fail>
    ensures { IfOk result (λ block. All (λ row. fits schema.now.columns row ≡ true) (arc_value block).rows) }
{
    let values = vec![in alloc; Value::UInt(number)]?;
    let rows = vec![in alloc; ValueRow::new(values)]?;
    let Some(rows) = Rows::of_rows(alloc, &rows, schema)? else {
        return Err("the row is not of the table".into());
    };
    let block = Block::new(alloc, rows, schema)?;
    let shared = Arc::new(alloc, block)?;
    Ok(shared)
}

/// A table of two replicas without entries, and what a client knows of it.
fn carried_of(alloc: Global, schema: &Arc<Schema, Global>) -> Result<Carried, Fail>
    ensures rest { IfOk result (λ c. AreAtRest (λ k b. ⊤) c.up.items c.known.items c.states.items) }
    ensures two { IfOk result (λ c. length c.up.items ≡ 2) }
    ensures one { IfOk result (λ c. length c.states.items ≡ 1) }
    ensures schema { IfOk result (λ c. (name_at (map (λ s. named s.tree) c.states.items) 0).schema ≡ arc_value schema.now) }
{
    let shared = Arc::try_clone(schema)?;
    let own = KnownTable::new(alloc, shared, 2)?;
    let same = Arc::try_clone(schema)?;
    let state = State::new(alloc, same, &[true, true])?;
    let up = vec![in alloc; true, true]?;
    let known = vec![in alloc; own]?;
    let states = vec![in alloc; state]?;
    Ok(Carried { states, known, up })
}

/// Inserts the block of a number at the first replica, which is to be at so many.
fn insert<N: Naming>(
    rt: &impl Wait,
    alloc: Global,
    crew: &Crew<N>,
    pass: &mut Pass<N>,
    schema: &Schema,
    number: u64,
    need: u32,
) -> Result<Piece, Fail>
    requires two { N.replicas ≡ 2 }
    requires schema { schema.now ≡ (name_at N.tables 0).schema }
    requires offered { (b : AnyBlock) → N.offered 0 b }
    requires need { need ≢ 1 }
{
    let block = block_of(alloc, schema, number)?;
    if pass.len() == 0 || !pass.is_up(1) {
        return Err("no table, or no replica".into());
    }
    let Ok(piece) = crew.insert(rt, pass, 0, 1, block, need, &Open)? else {
        return Err("refused".into());
    };
    Ok(piece)
}

/// How many active parts the second replica has once it is up to date.
fn count_parts<N: Naming>(rt: &impl Wait, crew: &Crew<N>, pass: &mut Pass<N>) -> Result<usize, Fail>
    requires two { N.replicas ≡ 2 }
{
    if pass.len() == 0 {
        return Err("no table".into());
    }
    if crew.sync(rt, pass, 0, 2, &Open)?.is_some() {
        return Err("a part is lost".into());
    }
    if pass.len() == 0 {
        return Err("no table".into());
    }
    let parts = crew.snapshot(rt, pass, 0, 2, &Open)?;
    Ok(parts.len())
}

/// Has a worker take so many turns at the first replica.
fn work<N: Naming>(rt: &impl Wait, crew: &Crew<N>, turns: usize) -> Result<(), Fail> {
    for _ in 0..turns {
        crew.work(rt, 0, 1, &Open)?;
    }
    Ok(())
}

/// Two blocks are inserted, the first one twice and the second one at two replicas; then they are merged. Gives how many
/// parts the second replica had before, and has then, and how many tables are handed back.
fn day<N: Naming>(
    rt: &impl Wait,
    alloc: Global,
    schema: &Schema,
    carried: Carried,
    entries: Blank,
) -> Result<(usize, usize, usize), Fail>
    requires named { map (λ s. named s.tree) carried.states.items ≡ N.tables }
    requires rest { AreAtRest N.offered carried.up.items carried.known.items carried.states.items }
    requires ups { length carried.up.items ≡ N.replicas }
    requires one { length carried.states.items ≡ 1 }
    requires two { N.replicas ≡ 2 }
    requires schema { schema.now ≡ (name_at N.tables 0).schema }
    requires offered { (b : AnyBlock) → N.offered 0 b }
    requires name { entries.name ≡ N.entries_name }
    requires parts { entries.parts ≡ N.parts }
    requires whole { 0 < N.parts }
{
    let (crew, mut pass) = Crew::<N>::new(alloc, carried, entries)?;
    insert(rt, alloc, &crew, &mut pass, schema, 7, 0)?;
    let Piece::Duplicate(_) = insert(rt, alloc, &crew, &mut pass, schema, 7, 0)? else {
        return Err("written twice".into());
    };
    let Piece::Part(_) = insert(rt, alloc, &crew, &mut pass, schema, 8, 2)? else {
        return Err("not written".into());
    };
    let before = count_parts(rt, &crew, &mut pass)?;
    work(rt, &crew, 6)?;
    let after = count_parts(rt, &crew, &mut pass)?;
    let carried = crew.close(rt, pass)?;
    Ok((before, after, carried.states.len()))
}

#[test]
fn blocks_reach_another_replica_and_are_merged(rt: HostRuntime) -> Result<(), Fail> {
    let schema = schema_of(rt.alloc())?;
    let carried = carried_of(rt.alloc(), &schema)?;
    let parts = day::<Brand>(&rt, rt.alloc(), &schema, carried, Blank::new(1))?;
    assert!(rt; parts == (2, 1, 1));
    Ok(())
}
