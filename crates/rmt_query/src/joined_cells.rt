//! Cells over some rows and over others, put together.
ghost use Rattle.std.specs.Prelude.{◌≡◌, IfOk};
ghost use Rattle.rmt_query.specs.Cells.{added as added_cells, greater as greater_cell, joined as joined_cells, lesser as lesser_cell};

use crate::cells::compare_cells;
use rmt_values::{Cell, CheckedItem};
use std::alloc::AllocError;
use std::cmp::Ordering;

/// What an item is over the rows of both cells. A count that 64 bits don't hold, or a sum that 128 bits don't, is out of
/// memory: no memory has so many rows.
pub fn joined(item: CheckedItem, a: Cell, b: Cell) -> Result<Cell, AllocError>
    ensures { IfOk result (λ cell. cell ≡ joined_cells item a b) }
{
    match item {
        CheckedItem::Count | CheckedItem::Sum(_) => added(a, b),
        CheckedItem::Column(_) | CheckedItem::Min(_) => Ok(lesser(a, b)),
        CheckedItem::Max(_) => Ok(greater(a, b)),
    }
}

/// The counts or the sums of both, added.
fn added(a: Cell, b: Cell) -> Result<Cell, AllocError>
    ensures { IfOk result (λ cell. cell ≡ added_cells a b) }
{
    match (a, b) {
        (Cell::UInt(a), Cell::UInt(b)) => match a.checked_add(b) {
            Some(count) => Ok(Cell::UInt(count)),
            None => Err(AllocError),
        },
        (Cell::Sum(a), Cell::Sum(b)) => match a.checked_add(b) {
            Some(sum) => Ok(Cell::Sum(sum)),
            None => Err(AllocError),
        },
        (_, b) => Ok(b),
    }
}

/// The lesser of two cells, the first where they are equal.
fn lesser(a: Cell, b: Cell) -> Cell
    ensures { result ≡ lesser_cell a b }
{
    match compare_cells(&a, &b) {
        Ordering::Greater => b,
        _ => a,
    }
}

/// The greater of two cells, the first where they are equal.
fn greater(a: Cell, b: Cell) -> Cell
    ensures { result ≡ greater_cell a b }
{
    match compare_cells(&b, &a) {
        Ordering::Greater => b,
        _ => a,
    }
}
