ghost use Rattle.std.specs.Prelude.{◌≡◌, ◌≤◌, ◌<◌, ◌∷◌, [], ⊤, true, length, IfOk, OnOk};
ghost use Rattle.std.specs.List.{All};
ghost use Rattle.std.specs.Arc.{arc_value};
ghost use Rattle.rmt_values.specs.Rows.{fits};
ghost use Rattle.rmt_columns.specs.RowsByColumn.{kinds_in};
ghost use Rattle.rmt_compact.specs.NewParts.{GetsBlock};
ghost use Rattle.rmt_block.specs.Blocks.{id_of};
ghost use Rattle.rmt_events.specs.Views.{Block as AnyBlock};
ghost use Rattle.rmt_shared.specs.SharedTables.{HasBlocks, named, IsCopyOfNamed, name_at};
ghost use Rattle.rmt_shared.specs.SharedReplicas.{IsNumber};

use super::*;
use rmt_block::{Block, id};
use rmt_columns::Rows;
use rmt_compact::from_block;
use rmt_entries::Entry;
use rmt_history::LogCopy;
use rmt_jobs::Job;
use rmt_part::Part;
use rmt_partset::{PartSet, Snapshot};
use rmt_replica::{Replica, Supply};
use rmt_row::{PutError, Row, Seen};
use rmt_table::{Lock, TableTree};
use rmt_values::{Column, Kind, Name, Row as ValueRow, Schema, Value};
use std::alloc::{AllocError, Global};
use std::marker::Brand;
use std::sync::ledger::{Blank, Share};
use std::sync::{Arc, Mutex, Wait};
use std::test::Fail;
use std::thread::join;

/// The only column, `c` of UInt64.
fn columns_of(alloc: Global) -> Result<Vec<Column>, AllocError> {
    let name = Name::from_slice(alloc, b"c")?;
    let kind = Kind::UInt64;
    let columns = vec![in alloc; Column { name, kind }]?;
    Ok(columns)
}

/// The key, which is that column.
fn key_of(alloc: Global) -> Result<Vec<Name>, AllocError> {
    let name = Name::from_slice(alloc, b"c")?;
    let key = vec![in alloc; name]?;
    Ok(key)
}

fn schema_of(alloc: Global) -> Result<Schema, Fail> {
    let columns = columns_of(alloc)?;
    let key = key_of(alloc)?;
    match Schema::new(alloc, columns, key, None, 2, 100) {
        Ok(schema) => Ok(schema),
        Err(_) => Err("no schema".into()),
    }
}

fn shared_schema(alloc: Global) -> Result<Arc<Schema, Global>, Fail> {
    let schema = schema_of(alloc)?;
    let shared = Arc::new(alloc, schema)?;
    Ok(shared)
}

/// The row of a number.
fn values_of(alloc: Global, number: u64) -> Result<Vec<ValueRow>, AllocError>
    ensures { IfOk result (λ rows. length rows.items ≡ 1) }
{
    let values = vec![in alloc; Value::UInt(number)]?;
    let rows = vec![in alloc; ValueRow::new(values)]?;
    Ok(rows)
}

/// That row, held by column.
fn rows_of(alloc: Global, schema: &Schema, number: u64) -> Result<Rows, Fail>
    ensures one { IfOk result (λ rows. length rows.rows ≡ 1) }
    ensures fit { IfOk result (λ rows. All (λ row. fits schema.now.columns row ≡ true) rows.rows) }
    ensures kinds { IfOk result (λ rows. rows.kinds ≡ kinds_in schema.now.columns) }
{
    let values = values_of(alloc, number)?;
    match Rows::of_rows(alloc, &values, schema)? {
        Some(rows) => Ok(rows),
        None => Err("the row is not of the table".into()),
    }
}

/// A block of that row.
fn block_of(alloc: Global, schema: &Schema, number: u64) -> Result<Arc<Block, Global>, Fail>
    ensures { IfOk result (λ block. All (λ row. fits schema.now.columns row ≡ true) (arc_value block).rows) }
{
    let rows = rows_of(alloc, schema, number)?;
    let block = Block::new(alloc, rows, schema)?;
    let shared = Arc::new(alloc, block)?;
    Ok(shared)
}

/// The token of the block's Get, in a row of one cell.
fn token_of(alloc: Global, block: &Block) -> Result<Seen<Entry>, Fail>
    ensures { IfOk result (λ token. GetsBlock token.value block.now) }
{
    let get = Entry::Get {
        partition: block.partition(),
        number: 0,
        digest: block.digest(),
        source: 1,
        need: 0,
    };
    let get = Arc::new(alloc, get)?;
    let row = Row::new(alloc, 1)?;
    match row.set(0, get) {
        Ok(token) => Ok(token),
        Err(_) => Err("not set".into()),
    }
}

/// The part of the block.
fn part_of(alloc: Global) -> Result<Arc<Part, Global>, Fail> {
    let schema = shared_schema(alloc)?;
    let block = block_of(alloc, &schema, 7)?;
    let token = token_of(alloc, &block)?;
    let part = from_block(alloc, block, token, &schema)?;
    let shared = Arc::new(alloc, part)?;
    Ok(shared)
}

/// A snapshot of this part alone.
fn snapshot_of(alloc: Global, part: Arc<Part, Global>) -> Result<Snapshot, Fail> {
    let mut parts = PartSet::new(alloc);
    parts.reserve()?;
    parts.replace(part);
    let snapshot = parts.snapshot(alloc)?;
    Ok(snapshot)
}

/// The number of the drop that the row's only cell holds, after this one was put there.
fn put(row: &Row<Entry>, alloc: Global, number: u32) -> Option<u32> {
    if row.len() == 0 {
        return None;
    }
    let drop = Entry::DropRange {
        partition: None,
        number,
    };
    let entry = Arc::new(alloc, drop).ok()?;
    let seen = match row.set(0, entry) {
        Ok(seen) => seen,
        Err(PutError::Taken(seen)) => seen,
        Err(PutError::Memory(_)) => return None,
    };
    match seen.value() {
        Entry::DropRange {
            partition: _,
            number,
        } => Some(*number),
        _ => None,
    }
}

/// A table of one replica, without entries.
fn table_of(alloc: Global) -> Result<TableTree, Fail>
    ensures sessions { IfOk result (λ table. length table.sessions ≡ 1) }
    ensures blocks { IfOk result (λ table. HasBlocks (λ b. ⊤) table) }
{
    let schema = shared_schema(alloc)?;
    let table = TableTree::new(alloc, schema, 1)?;
    Ok(table)
}

/// Inserts the block of a number at the first replica of the first table.
fn insert<N: Naming>(
    alloc: Global,
    tables: &mut SharedTables<N>,
    all: &mut Share<ClientEntries<N>>,
    number: u64,
) -> Result<(), Fail>
    requires here { 1 ≤ N.replicas }
    requires offered { (b : AnyBlock) → N.offered 0 b }
    requires part { 0 < all.old.parts }
    ensures parts { all.new.parts ≡ all.old.parts }
{
    let schema = schema_of(alloc)?;
    let shared = block_of(alloc, &schema, number)?;
    let block: &Block = &shared;
    if tables.len() == 0 {
        return Err("no table".into());
    }
    let Ok(lock) = tables.allocate(alloc, 0, 1, &id(block), 0) else {
        return Err("no number".into());
    };
    accept(alloc, tables, all, &lock, block)
}

/// Accepts the block of a lock of the first table.
fn accept<N: Naming>(
    alloc: Global,
    tables: &mut SharedTables<N>,
    all: &mut Share<ClientEntries<N>>,
    lock: &Lock,
    block: &Block,
) -> Result<(), Fail>
    requires here { IsNumber lock.now.replica N.replicas }
    requires id { lock.now.id ≡ id_of block.now }
    requires offered { (b : AnyBlock) → N.offered 0 b }
    requires part { 0 < all.old.parts }
    ensures parts { all.new.parts ≡ all.old.parts }
{
    if tables.len() == 0 || !tables.has_lock(alloc, 0, lock)? {
        return Err("no table or no lock".into());
    }
    match tables.commit_insert(alloc, 0, lock, 0, block, all) {
        Ok(()) => Ok(()),
        Err(_) => Err("not accepted".into()),
    }
}

/// Starts the session of the first table's first replica.
fn start<N: Naming>(alloc: Global, tables: &mut SharedTables<N>) -> Result<(), Fail>
    requires here { 1 ≤ N.replicas }
{
    if tables.len() == 0 {
        return Err("no table".into());
    }
    tables.open_session(alloc, 0, 1)?;
    Ok(())
}

/// Fills the first table with two blocks.
fn fill<N: Naming>(
    alloc: Global,
    tables: &mut SharedTables<N>,
    all: &mut Share<ClientEntries<N>>,
) -> Result<(), Fail>
    requires here { 1 ≤ N.replicas }
    requires offered { (b : AnyBlock) → N.offered 0 b }
    requires part { 0 < all.old.parts }
    ensures parts { all.new.parts ≡ all.old.parts }
{
    start(alloc, tables)?;
    insert(alloc, tables, all, 7)?;
    insert(alloc, tables, all, 8)?;
    Ok(())
}

/// Drops the only partition of the first table.
fn empty<N: Naming>(
    alloc: Global,
    tables: &mut SharedTables<N>,
    all: &mut Share<ClientEntries<N>>,
) -> Result<(), Fail>
    requires part { 0 < all.old.parts }
{
    if tables.len() == 0 {
        return Err("no table".into());
    }
    match tables.drop_partition(alloc, 0, None, all) {
        Ok(Some(2)) => Ok(()),
        _ => Err("not dropped".into()),
    }
}

/// What comes next at the replica under a lock, and what is done of it under both locks.
fn decide<N: Naming>(
    alloc: Global,
    shared: &mut SharedReplica<N>,
    tables: &mut SharedTables<N>,
) -> Result<Job, Fail> {
    if shared.table() >= tables.len() {
        return Err("no table".into());
    }
    let job = shared.decide(alloc, tables)?;
    Ok(job)
}

/// Does the entry at a place of the replica's copy, which needs no part.
fn install<N: Naming>(shared: &mut SharedReplica<N>, place: u32) -> Result<(), Fail> {
    let place = place as usize;
    if shared.replica().copy().len() <= place {
        return Err("no entry".into());
    }
    match shared.install(place, Supply::Nothing) {
        Ok(_) => Ok(()),
        Err(_) => Err("not done".into()),
    }
}

/// Has a worker do one thing after the other at a table's only replica, and counts them until nothing comes next.
fn work<N: Naming>(alloc: Global, table: TableTree, entries: Blank) -> Result<usize, Fail>
    requires named { named table ∷ [] ≡ N.tables }
    requires sessions { length table.sessions ≡ N.replicas }
    requires some { 1 ≤ N.replicas }
    requires blocks { HasBlocks (N.offered 0) table }
    requires offered { (b : AnyBlock) → N.offered 0 b }
    requires name { entries.name ≡ N.entries_name }
    requires parts { entries.parts ≡ N.parts }
    requires whole { 0 < N.parts }
{
    let schema = table.schema().clone()?;
    let replica = Replica::new(alloc, 1, schema, true);
    let mut shared = SharedReplica::<N>::new(0, replica);
    let tables = vec![in alloc; table]?;
    let (mut tables, mut all) = SharedTables::<N>::open(tables, entries);
    fill(alloc, &mut tables, &mut all)?;
    empty(alloc, &mut tables, &mut all)?;
    for done in 0..10usize {
        match decide(alloc, &mut shared, &mut tables)? {
            Job::Idle => return Ok(done),
            Job::Apply(place) => install(&mut shared, place)?,
            _ => {}
        }
    }
    Err("there is always more to do".into())
}

/// How many entries the log of a table has that is under a lock.
fn log_len(rt: &impl Wait, table: &Mutex<TableTree>) -> u32 {
    table.lock(rt).log_len()
}

#[test]
fn two_threads_set_one_cell(rt: HostRuntime) -> Result<(), Fail> {
    let alloc = rt.alloc();
    let row: Row<Entry> = Row::new(alloc, 1)?;
    let (first, second) = join(&rt, || put(&row, alloc, 1), || put(&row, alloc, 2));
    assert!(rt; first.is_some() && first == second);
    Ok(())
}

#[test]
fn two_threads_read_a_table_under_its_lock(rt: HostRuntime) -> Result<(), Fail> {
    let alloc = rt.alloc();
    let table = Mutex::new(table_of(alloc)?);
    let (first, second) = join(&rt, || log_len(&rt, &table), || log_len(&rt, &table));
    assert!(rt; first == 0 && second == 0);
    Ok(())
}

#[test]
fn a_replica_is_handed_to_a_thread(rt: HostRuntime) -> Result<(), Fail> {
    let alloc = rt.alloc();
    let replica = Replica::new(alloc, 1, shared_schema(alloc)?, true);
    let (number, _) = join(&rt, move || replica.number(), || ());
    assert!(rt; number == 1);
    Ok(())
}

#[test]
fn two_threads_read_a_copy_of_the_log(rt: HostRuntime) -> Result<(), Fail> {
    let alloc = rt.alloc();
    let copy = LogCopy::new(alloc, shared_schema(alloc)?);
    let (first, second) = join(&rt, || copy.len(), || copy.len());
    assert!(rt; first == 0 && second == 0);
    Ok(())
}

#[test]
fn two_threads_read_a_part(rt: HostRuntime) -> Result<(), Fail> {
    let part = part_of(rt.alloc())?;
    let (first, second) = join(&rt, || part.blocks().len(), || part.blocks().len());
    assert!(rt; first == 1 && second == 1);
    Ok(())
}

#[test]
fn two_threads_read_a_snapshot(rt: HostRuntime) -> Result<(), Fail> {
    let alloc = rt.alloc();
    let snapshot = snapshot_of(alloc, part_of(alloc)?)?;
    let (first, second) = join(&rt, || snapshot.len(), || snapshot.len());
    assert!(rt; first == 1 && second == 1);
    Ok(())
}

#[test]
fn a_part_is_handed_to_a_thread(rt: HostRuntime) -> Result<(), Fail> {
    let supply = Supply::Built(part_of(rt.alloc())?);
    let (is_built, _) = join(&rt, move || matches!(supply, Supply::Built(_)), || ());
    assert!(rt; is_built);
    Ok(())
}

#[test]
fn a_worker_does_what_the_log_has(rt: HostRuntime) -> Result<(), Fail> {
    let table = table_of(rt.alloc())?;
    let done = work::<Brand>(rt.alloc(), table, Blank::new(1))?;
    assert_eq!(rt; done, 4);
    Ok(())
}
