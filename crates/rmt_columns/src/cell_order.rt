//! Rows where they lie in columns.
ghost use Rattle.std.specs.Prelude.{◌≡◌, IfOk};
ghost use Rattle.rmt_values.specs.Rows.{cell_cmp};
ghost use Rattle.rmt_columns.specs.RowsByColumn.{cell_in, cells_cmp, kinds_of, row_at as cells_at};
ghost use Rattle.rmt_columns.specs.Places.{numbers_from};

use crate::column_values::ColumnValues;
use rmt_values::Row;
use std::alloc::{AllocError, Global};
use std::cmp::Ordering;

/// The values of row `i` of these columns.
pub fn row_at(alloc: Global, columns: &[ColumnValues], i: usize) -> Result<Row, AllocError>
    ensures { IfOk result (λ row. row ≡ cells_at i columns.now) }
{
    let mut values = Vec::with_capacity(alloc, columns.len())?;
    'columns: for column in columns {
        if let Some(value) = column.get(i) {
            values.push(value.to_value(alloc)?)?;
        }
    }
    Ok(Row::new(values))
}

/// The order of row `i` of some columns and row `j` of others, which have the same types, by the columns of a key.
pub fn order_of_rows(
    key: &[u16],
    left: &[ColumnValues],
    i: usize,
    right: &[ColumnValues],
    j: usize,
) -> Ordering
    requires { kinds_of left.now ≡ kinds_of right.now }
    ensures { result ≡ cells_cmp key.now left.now i right.now j }
{
    'columns: for column in key {
        let at = *column as usize;
        match order_of_cells(left, i, right, j, at) {
            Ordering::Equal => {}
            order => return order,
        }
    }
    Ordering::Equal
}

/// The order of the values of one column; a missing one comes first.
fn order_of_cells(
    left: &[ColumnValues],
    i: usize,
    right: &[ColumnValues],
    j: usize,
    at: usize,
) -> Ordering
    requires { kinds_of left.now ≡ kinds_of right.now }
    ensures { result ≡ cell_cmp (cell_in left.now i at) (cell_in right.now j at) }
{
    if at >= left.len() {
        return Ordering::Equal;
    }
    left[at].order(i, &right[at], j)
}

/// The numbers below one, in order.
pub fn places_to(alloc: Global, count: usize) -> Result<Vec<usize>, AllocError>
    ensures { IfOk result (λ places. places.items ≡ numbers_from 0 count) }
{
    let mut places = Vec::with_capacity(alloc, count)?;
    'places: for place in 0..count {
        places.push(place)?;
    }
    Ok(places)
}
