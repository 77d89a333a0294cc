//! Single cells of an answer.
ghost use Rattle.std.specs.Prelude.{◌≡◌, ◌^◌, pos, ◌+ℤ◌, ◌≤ℤ◌, IfOk};
ghost use Rattle.rmt_query.specs.Cells.{cell_order, cell_of, number_of, one, zero_of};
ghost use Rattle.std.specs.Option.{option_map};
ghost use Rattle.rmt_values.specs.Rows.{kind_at};
ghost use Rattle.rmt_columns.specs.Columns.{value_of};

use rmt_columns::{RowRef, ValueRef};
use rmt_values::{Blob, Cell, CheckedItem, Kind, Schema};
use std::alloc::{AllocError, Global};
use std::cmp::Ordering;

/// The order of cells: numbers as numbers, Strings by their bytes. Sums come last.
pub fn compare_cells(a: &Cell, b: &Cell) -> Ordering
    ensures { result ≡ cell_order a.now b.now }
{
    match (a, b) {
        (Cell::UInt(a), Cell::UInt(b)) => a.cmp(b),
        (Cell::Int(a), Cell::Int(b)) => a.cmp(b),
        (Cell::Text(a), Cell::Text(b)) => a.compare(b),
        (Cell::Sum(a), Cell::Sum(b)) => a.cmp(b),
        (Cell::UInt(_), _) => Ordering::Less,
        (_, Cell::UInt(_)) => Ordering::Greater,
        (Cell::Int(_), _) => Ordering::Less,
        (_, Cell::Int(_)) => Ordering::Greater,
        (Cell::Text(_), _) => Ordering::Less,
        (_, Cell::Text(_)) => Ordering::Greater,
    }
}

/// What is shown of a value that a row has in a column.
pub fn shown(alloc: Global, value: Option<ValueRef<'_>>) -> Result<Cell, AllocError>
    ensures { IfOk result (λ cell. cell ≡ cell_of (option_map value_of value.entry)) }
{
    match value {
        Some(ValueRef::UInt(number)) => Ok(Cell::UInt(number)),
        Some(ValueRef::Int(number)) => Ok(Cell::Int(number)),
        Some(ValueRef::Text(text)) => Ok(Cell::Text(Blob::new(Vec::from_slice(alloc, text)?))),
        None => Ok(Cell::Sum(0)),
    }
}

/// The number that a value is, and 0 for what is none.
pub fn number(value: Option<ValueRef<'_>>) -> i128
    ensures value { result ≡ number_of (option_map value_of value.entry) }
    ensures least { pos 0 ≤ℤ (result +ℤ pos (2 ^ 64)) }
    ensures greatest { result ≤ℤ pos (2 ^ 64) }
{
    match value {
        Some(ValueRef::UInt(number)) => number as i128,
        Some(ValueRef::Int(number)) => number as i128,
        Some(ValueRef::Text(_)) | None => 0,
    }
}

/// The order of what two rows show of the values that they have in a column.
pub fn compare_values(a: Option<ValueRef<'_>>, b: Option<ValueRef<'_>>) -> Ordering
    ensures { result ≡ cell_order (cell_of (option_map value_of a.entry)) (cell_of (option_map value_of b.entry)) }
{
    match (a, b) {
        (Some(a), Some(b)) => a.order(b),
        (Some(_), None) => Ordering::Less,
        (None, Some(_)) => Ordering::Greater,
        (None, None) => Ordering::Equal,
    }
}

/// What an item is over one row.
pub fn one_cell(alloc: Global, item: CheckedItem, row: &RowRef<'_>) -> Result<Cell, AllocError>
    ensures { IfOk result (λ cell. cell ≡ one item row.now) }
{
    match item {
        CheckedItem::Column(column) | CheckedItem::Min(column) | CheckedItem::Max(column) => {
            let cell = shown(alloc, row.value(column))?;
            Ok(cell)
        }
        CheckedItem::Count => Ok(Cell::UInt(1)),
        CheckedItem::Sum(column) => Ok(Cell::Sum(number(row.value(column)))),
    }
}

/// What an item is over no rows.
pub fn zero_cell(alloc: Global, item: CheckedItem, schema: &Schema) -> Cell
    ensures { result ≡ zero_of schema.now item }
{
    match item {
        CheckedItem::Column(column) | CheckedItem::Min(column) | CheckedItem::Max(column) => {
            match schema.kind(column) {
                Some(Kind::UInt64) => Cell::UInt(0),
                Some(Kind::Int64) => Cell::Int(0),
                Some(Kind::Text) => Cell::Text(Blob::new(Vec::new(alloc))),
                None => Cell::Sum(0),
            }
        }
        CheckedItem::Count => Cell::UInt(0),
        CheckedItem::Sum(_) => Cell::Sum(0),
    }
}
