//! Rows in the order of the key.
ghost use Rattle.std.specs.Prelude.{◌≡◌, ◌↔◌, IsTrue, true, IfOk};
ghost use Rattle.std.specs.List.{All, AllByRecursion};
ghost use Rattle.rmt_values.specs.Rows.{fits, in_key_order, is_value};
ghost use Rattle.rmt_columns.specs.Columns.{value_of};
ghost use Rattle.rmt_columns.specs.RowsByColumn.{AreOfKind, kinds_in};
ghost use Rattle.rmt_granules.specs.MadePart.{data_of};

use crate::part_data::{PartData, from_rows};
use rmt_columns::{ColumnValues, Rows, ValueRef};
use rmt_values::{Kind, LONGEST_TEXT, Schema};
use std::alloc::{AllocError, Global};

/// Whether each row of the schema's types fits it: whether no String is too long.
pub fn all_fit(rows: &Rows, schema: &Schema) -> bool
    requires { rows.now.kinds ≡ kinds_in schema.now.columns }
    ensures { IsTrue result ↔ All (λ row. fits schema.now.columns row ≡ true) rows.now.rows }
{
    let columns = rows.columns();
    'columns: for column in columns {
        if !are_values(column) {
            return false;
        }
    }
    true
}

/// Whether each value of the column is one: a String may be too long.
fn are_values(column: &ColumnValues) -> bool
    requires { AreOfKind column.now.kind column.now.values }
    ensures { IsTrue result ↔ AllByRecursion (λ value. is_value value ≡ true) column.now.values }
{
    match column.kind() {
        Kind::UInt64 | Kind::Int64 => true,
        Kind::Text => are_short(column),
    }
}

/// Whether no String of the column is too long.
fn are_short(column: &ColumnValues) -> bool
    ensures { IsTrue result ↔ AllByRecursion (λ value. is_value value ≡ true) column.now.values }
{
    'values: for i in 0..column.len() {
        if let Some(value) = column.get(i) {
            if !is_short(value) {
                return false;
            }
        }
    }
    true
}

/// Whether this is no String that is too long.
fn is_short(value: ValueRef<'_>) -> bool
    ensures { result ≡ is_value (value_of value.entry) }
{
    match value {
        ValueRef::UInt(_) | ValueRef::Int(_) => true,
        ValueRef::Text(text) => text.len() <= LONGEST_TEXT,
    }
}

/// Makes a part of the rows of a schema, in whatever order they are.
#[tactic(auto, unfolding(rmt_values::specs::Rows::in_key_order))]
pub fn from_unsorted_rows(
    alloc: Global,
    rows: &Rows,
    schema: &Schema,
) -> Result<PartData, AllocError>
    requires fit { All (λ row. fits schema.now.columns row ≡ true) rows.now.rows }
    requires kinds { rows.now.kinds ≡ kinds_in schema.now.columns }
    ensures { IfOk result (λ part. part ≡ data_of schema.now (in_key_order schema.now rows.now.rows)) }
{
    let places = rows.places_in_order(alloc, schema.key())?;
    let sorted = rows.gather(alloc, &places)?;
    let part = from_rows(alloc, sorted, schema)?;
    Ok(part)
}
