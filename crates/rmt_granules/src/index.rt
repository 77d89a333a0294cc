//! The marks of rows.
ghost use Rattle.std.specs.Prelude.{◌≡◌, ◌<◌, [], get_or, IfOk};
ghost use Rattle.rmt_granules.specs.Granules.{key_values, marks_of};

use rmt_columns::Rows;
use rmt_values::Row;
use std::alloc::{AllocError, Global};

/// The key of each granule's first row.
pub fn marks_in(
    alloc: Global,
    rows: &Rows,
    key: &[u16],
    granularity: u32,
) -> Result<Vec<Row>, AllocError>
    requires { 0 < granularity }
    ensures { IfOk result (λ marks. marks.items ≡ marks_of granularity key.now rows.now.rows) }
{
    let mut marks = Vec::new(alloc);
    let mut first: usize = 0;
    'granules: while first < rows.len() {
        let mark = mark_of(alloc, rows, first, key)?;
        marks.push(mark)?;
        first = first.saturating_add(granularity as usize);
    }
    Ok(marks)
}

/// The values of row `i` in the key's columns.
fn mark_of(alloc: Global, rows: &Rows, i: usize, key: &[u16]) -> Result<Row, AllocError>
    ensures { IfOk result (λ mark. mark ≡ key_values key.now (get_or rows.now.rows i [])) }
{
    let mut mark = Vec::with_capacity(alloc, key.len())?;
    'columns: for column in key {
        if let Some(value) = rows.value(i, *column) {
            mark.push(value.to_value(alloc)?)?;
        }
    }
    Ok(Row::new(mark))
}
