//! Rows of numbers.
use rmt_values::{Row, Value};
use std::alloc::{AllocError, Global};
use std::cmp::Ordering;

/// Rows as the numbers in their columns.
pub(crate) type Numbers = &'static [&'static [u64]];

/// The columns of a row, as far as there are any.
const COLUMNS: &[u16] = &[0, 1, 2];

/// A row of these numbers.
fn row_of(alloc: Global, numbers: &[u64]) -> Result<Row, AllocError> {
    let mut values = Vec::with_capacity(alloc, numbers.len())?;
    for number in numbers {
        values.push(Value::UInt(*number))?;
    }
    Ok(Row::new(values))
}

/// Rows of these numbers.
pub(crate) fn rows_of(alloc: Global, all: &[&[u64]]) -> Result<Vec<Row>, AllocError> {
    let mut rows = Vec::with_capacity(alloc, all.len())?;
    for numbers in all {
        rows.push(row_of(alloc, numbers)?)?;
    }
    Ok(rows)
}

/// The rows in order of all columns.
pub(crate) fn sorted(rows: Vec<Row>) -> Result<Vec<Row>, AllocError> {
    let mut rows = rows;
    rows.sort_by(|a, b| a.compare_by(COLUMNS, b))?;
    Ok(rows)
}

/// Whether two rows have the same numbers.
pub(crate) fn are_same(a: &Row, b: &Row) -> bool {
    a.compare_by(COLUMNS, b) == Ordering::Equal
}

/// Whether the rows are the same, in their order.
pub(crate) fn are_equal(left: &[Row], right: &[Row]) -> bool {
    if left.len() != right.len() {
        return false;
    }
    for (a, b) in left.iter().zip(right.iter()) {
        if !are_same(a, b) {
            return false;
        }
    }
    true
}
