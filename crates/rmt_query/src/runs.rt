//! Sorted rows in groups, each group a run of them.
ghost use Rattle.std.specs.Prelude.{◌≡◌, ◌<◌, ◌≤◌, ◌+◌, ◌⊎◌, ℕ, [], map, length, get_or, slice_index_or, IfOk};
ghost use Rattle.std.specs.List.{AllWithin};
ghost use Rattle.std.specs.List.Sorted.{IsSorted};
ghost use Rattle.std.specs.declared.cmp.Ordering.TheVariants.{Equal};
ghost use Rattle.rmt_values.specs.Rows.{key_cmp};
ghost use Rattle.rmt_query.specs.Cells.{one};
ghost use Rattle.rmt_query.specs.Answers.{groups_of};
ghost use Rattle.rmt_query.specs.OverRows.{over};

use crate::cells::{compare_values, shown};
use crate::row_values::{Listed, RowValues};
use crate::tuple::Tuple;
use rmt_columns::RowRef;
use rmt_values::{Cell, CheckedItem};
use std::alloc::{AllocError, Global};
use std::cmp::Ordering;

/// The tuples of the groups of rows that are sorted by the columns of a group.
pub fn tuples_of_runs(
    alloc: Global,
    rows: &[RowRef<'_>],
    items: &[CheckedItem],
    group: &[u16],
) -> Result<Vec<Tuple>, AllocError>
    requires { IsSorted (key_cmp group.now) rows.now }
    ensures { IfOk result (λ tuples. tuples.items ≡ map (λ g. g.1) (groups_of items.now group.now rows.now)) }
{
    let mut tuples = Vec::new(alloc);
    let mut first = 0;
    'runs: while first < rows.len() {
        let (_, rest) = rows.split_at(first);
        let end = run_end(rest, group);
        let (run, _) = rest.split_at(end);
        let tuple = tuple_over(alloc, &Listed(run), items)?;
        tuples.push(tuple)?;
        first += end;
    }
    Ok(tuples)
}

/// How many of the rows, from the first on, are in its group.
fn run_end(rows: &[RowRef<'_>], group: &[u16]) -> usize
    requires { 0 < length rows.now }
    ensures some { 0 < result }
    ensures within { result ≤ length rows.now }
    ensures together { AllWithin (λ row. key_cmp group.now (slice_index_or rows.now 0 []) row ≡ Equal) rows.now 0 result }
    ensures apart { result < length rows.now
        → key_cmp group.now (slice_index_or rows.now 0 []) (slice_index_or rows.now result []) ≡ Equal → ⊥ }
{
    if group.is_empty() {
        return rows.len();
    }
    let first = &rows[0];
    'rows: for i in 1..rows.len() {
        match first.compare_by(group, &rows[i]) {
            Ordering::Equal => {}
            _ => return i,
        }
    }
    rows.len()
}

/// The tuple of a group of these rows.
fn tuple_over<R: RowValues>(
    alloc: Global,
    rows: &R,
    items: &[CheckedItem],
) -> Result<Tuple, AllocError>
    requires { 0 < length (R.rows rows.now) }
    ensures { IfOk result (λ tuple. tuple ≡ map (λ i. over i (R.rows rows.now)) items.now) }
{
    let mut cells = Vec::with_capacity(alloc, items.len())?;
    'items: for item in items {
        let cell = cell_over(alloc, *item, rows)?;
        cells.push(cell)?;
    }
    Ok(Tuple::new(cells))
}

/// What an item is over these rows.
pub fn cell_over<R: RowValues>(
    alloc: Global,
    item: CheckedItem,
    rows: &R,
) -> Result<Cell, AllocError>
    requires { 0 < length (R.rows rows.now) }
    ensures { IfOk result (λ cell. cell ≡ over item (R.rows rows.now)) }
{
    match item {
        CheckedItem::Count => Ok(Cell::UInt(rows.len() as u64)),
        CheckedItem::Sum(column) => Ok(Cell::Sum(rows.sum(column))),
        CheckedItem::Column(column) | CheckedItem::Min(column) => {
            let cell = shown(alloc, rows.value(least_row(column, rows), column))?;
            Ok(cell)
        }
        CheckedItem::Max(column) => {
            let cell = shown(alloc, rows.value(greatest_row(column, rows), column))?;
            Ok(cell)
        }
    }
}

/// The place of a row that shows the least cell of a column.
fn least_row<R: RowValues>(column: u16, rows: &R) -> usize
    requires { 0 < length (R.rows rows.now) }
    ensures there { result < length (R.rows rows.now) }
    ensures is { one (CheckedItem.Min column) (get_or (R.rows rows.now) result [])
        ≡ over (CheckedItem.Min column) (R.rows rows.now) }
{
    let mut best = 0;
    let mut least = rows.value(0, column);
    'rows: for i in 1..rows.len() {
        let value = rows.value(i, column);
        match compare_values(least, value) {
            Ordering::Greater => {
                best = i;
                least = value;
            }
            _ => {}
        }
    }
    best
}

/// The place of a row that shows the greatest cell of a column.
fn greatest_row<R: RowValues>(column: u16, rows: &R) -> usize
    requires { 0 < length (R.rows rows.now) }
    ensures there { result < length (R.rows rows.now) }
    ensures is { one (CheckedItem.Max column) (get_or (R.rows rows.now) result [])
        ≡ over (CheckedItem.Max column) (R.rows rows.now) }
{
    let mut best = 0;
    let mut greatest = rows.value(0, column);
    'rows: for i in 1..rows.len() {
        let value = rows.value(i, column);
        match compare_values(value, greatest) {
            Ordering::Greater => {
                best = i;
                greatest = value;
            }
            _ => {}
        }
    }
    best
}
