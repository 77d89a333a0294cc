//! Puts filters to rows wherever they lie.
ghost use Rattle.std.specs.Prelude.{◌≡◌, [], slice_get, get_or};
ghost use Rattle.std.specs.List.{list_any};
ghost use Rattle.rmt_values.specs.Filters.{holds as keeps, cell_holds};

use crate::keeps::compares;
use rmt_columns::{RowRef, Rows};
use rmt_values::{Checked, Cmp, Value};

/// Whether the filter keeps a row, wherever it lies: it reads the columns that it tests alone. A column that the row hasn't is in
/// no order: a test of it keeps no row.
pub fn holds_in(filter: &Checked, row: &RowRef<'_>) -> bool
    ensures { result ≡ keeps filter.now row.now }
{
    match filter {
        Checked::Test { column, cmp, value } => passes_in(*column, *cmp, value, row),
        Checked::Both(f, g) => holds_in(f.get(), row) && holds_in(g.get(), row),
        Checked::Either(f, g) => holds_in(f.get(), row) || holds_in(g.get(), row),
        Checked::Not(f) => !holds_in(f.get(), row),
    }
}

/// Whether the row passes a test.
fn passes_in(column: u16, cmp: Cmp, value: &Value, row: &RowRef<'_>) -> bool
    ensures { result ≡ cell_holds cmp (slice_get row.now column) value.now }
{
    match row.value(column) {
        Some(cell) => compares(cmp, cell.compare(value)),
        None => false,
    }
}

/// Whether the filter keeps row `i` of rows that are held by column, counted from 0.
pub fn holds_at(filter: &Checked, rows: &Rows, i: usize) -> bool
    ensures { result ≡ keeps filter.now (get_or rows.now.rows i []) }
{
    holds_in(filter, &RowRef::held(rows, i))
}

/// Whether the filter keeps one of the rows.
pub fn keeps_any(filter: &Checked, rows: &Rows) -> bool
    ensures { result ≡ list_any (keeps filter.now) rows.now.rows }
{
    'rows: for i in 0..rows.len() {
        if holds_at(filter, rows, i) {
            return true;
        }
    }
    false
}
