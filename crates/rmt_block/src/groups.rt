//! The rows of an INSERT are collected by their partition, and a block is made of those of each.
ghost use Rattle.std.specs.Prelude.{◌≡◌, ◌≤◌, ◌<◌, ◌^◌, ℕ, [], length, map, true, get_or, slice_get, IfOk, OnOk};
ghost use Rattle.std.specs.List.{All};
ghost use Rattle.std.specs.BTreeMap.{IsOrdered};
ghost use Rattle.std.specs.declared.option.Option.{Option};
ghost use Rattle.rmt_values.specs.Rows.{fits};
ghost use Rattle.rmt_values.specs.Partitions.{number_in, partition_of as partition_by};
ghost use Rattle.rmt_columns.specs.RowsByColumn.{kinds_in as types_of};
ghost use Rattle.rmt_block.specs.Groups.{AreGroups, IsGroup, group_block, partition_cmp, places_at, places_with};
ghost use Rattle.rmt_block.specs.Splits.{IsSplit};

use crate::block::{Block, kinds_of};
use rmt_columns::{Rows, ValueRef};
use rmt_names::PartitionId;
use rmt_values::Schema;
use std::alloc::{AllocError, Global};
use std::collections::BTreeMap;

// The places of the rows that were collected so far of each partition.
type Groups = BTreeMap<PartitionId, Vec<usize>>;

/// Makes the blocks of an INSERT: one for each partition that its rows are of, in the order of partitions. The rows of a
/// block stand in the order in which they were offered. Where there are no rows there is no block. Rows that are all of one
/// partition aren't copied. At an error no memory was left, and the rows are gone.
pub fn split(alloc: Global, rows: Rows, schema: &Schema) -> Result<Vec<Block>, AllocError>
    requires fit { All (λ row. fits schema.now.columns row ≡ true) rows.rows }
    requires few_rows { length rows.rows < 2 ^ 32 }
    requires kinds { rows.kinds ≡ types_of schema.now.columns }
    ensures { IfOk result (λ blocks. IsSplit schema.now rows.rows blocks.items) }
{
    let first = partition_at(&rows, 0, schema);
    if are_all_of(&rows, first, schema) {
        return whole(alloc, rows, first, schema);
    }
    let groups = collect(alloc, &rows, schema)?;
    let blocks = blocks_of(alloc, &rows, groups, schema)?;
    Ok(blocks)
}

// Makes the one block of rows of one partition; none of no rows.
fn whole(
    alloc: Global,
    rows: Rows,
    partition: PartitionId,
    schema: &Schema,
) -> Result<Vec<Block>, AllocError>
    requires fit { All (λ row. fits schema.now.columns row ≡ true) rows.rows }
    requires few_rows { length rows.rows < 2 ^ 32 }
    requires kinds { rows.kinds ≡ types_of schema.now.columns }
    requires partition { All (λ row. partition_by schema.now.partition row ≡ partition) rows.rows }
    ensures { IfOk result (λ blocks. IsSplit schema.now rows.rows blocks.items) }
{
    let mut blocks = Vec::new(alloc);
    if rows.len() == 0 {
        return Ok(blocks);
    }
    let kinds = kinds_of(alloc, schema.columns())?;
    let block = Block::of_kinds(alloc, partition, kinds, rows)?;
    blocks.push(block)?;
    Ok(blocks)
}

// Whether each row is of this partition.
fn are_all_of(rows: &Rows, partition: PartitionId, schema: &Schema) -> bool
    ensures { result ≡ true → All (λ row. partition_by schema.now.partition row ≡ partition) rows.now.rows }
{
    'rows: for i in 0..rows.len() {
        if partition_at(rows, i, schema) != partition {
            return false;
        }
    }
    true
}

// The partition of row `i`.
fn partition_at(rows: &Rows, i: usize, schema: &Schema) -> PartitionId
    ensures { result ≡ partition_by schema.now.partition (get_or rows.now.rows i []) }
{
    match schema.partition() {
        Some(rule) => Some(number_at(rows, i, rule.column) / rule.divisor),
        None => None,
    }
}

// The number of row `i` in a column; 0 where there is none.
fn number_at(rows: &Rows, i: usize, column: u16) -> u64
    ensures { result ≡ number_in (slice_get (get_or rows.now.rows i []) column) }
{
    match rows.value(i, column) {
        Some(ValueRef::UInt(number)) => number,
        Some(ValueRef::Int(_)) | Some(ValueRef::Text(_)) | None => 0,
    }
}

// Collects the places of the rows by partition.
fn collect(alloc: Global, rows: &Rows, schema: &Schema) -> Result<Groups, AllocError>
    ensures { IfOk result (λ groups. AreGroups schema.now.partition rows.now.rows groups) }
{
    let mut groups = BTreeMap::new(alloc);
    'rows: for i in 0..rows.len() {
        let partition = partition_at(rows, i, schema);
        add(alloc, &mut groups, partition, i)?;
    }
    Ok(groups)
}

// Puts a place after those of its partition.
fn add(
    alloc: Global,
    groups: &mut Groups,
    partition: PartitionId,
    place: usize,
) -> Result<(), AllocError>
    ensures ok { OnOk result ((p : Option ℕ)
        → places_at groups.new p ≡ places_with groups.old partition place p) }
    ensures ordered { OnOk result (IsOrdered partition_cmp groups.new) }
{
    if let Some(group) = groups.get_mut(&partition) {
        group.push(place)?;
        return Ok(());
    }
    let mut group = Vec::new(alloc);
    group.push(place)?;
    groups.insert(partition, group)?;
    Ok(())
}

// Makes a block of the rows of each partition.
fn blocks_of(
    alloc: Global,
    rows: &Rows,
    groups: Groups,
    schema: &Schema,
) -> Result<Vec<Block>, AllocError>
    requires groups { All (IsGroup (types_of schema.now.columns) rows.now.rows) groups.entries }
    requires kinds { rows.now.kinds ≡ types_of schema.now.columns }
    ensures { IfOk result (λ blocks.
        blocks.items ≡ map (group_block (types_of schema.now.columns) rows.now.rows) groups.entries) }
{
    let mut blocks = Vec::with_capacity(alloc, groups.len())?;
    'groups: for (partition, places) in groups {
        let kinds = kinds_of(alloc, schema.columns())?;
        let some = rows.gather(alloc, &places)?;
        let block = Block::of_kinds(alloc, partition, kinds, some)?;
        blocks.push(block)?;
    }
    Ok(blocks)
}
