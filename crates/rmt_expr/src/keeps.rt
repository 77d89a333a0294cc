//! Puts filters to rows.
ghost use Rattle.std.specs.Prelude.{◌≡◌, slice_get};
ghost use Rattle.rmt_values.specs.Filters.{holds as keeps, cell_holds, test_holds};

use rmt_values::{Checked, Cmp, Row, Value};
use std::cmp::Ordering;

/// Whether the filter keeps the row. A column that the row hasn't is in no order: a test of it keeps no row.
pub fn holds(filter: &Checked, row: &Row) -> bool
    ensures { result ≡ keeps filter.now row.now }
{
    match filter {
        Checked::Test { column, cmp, value } => passes(*column, *cmp, value, row),
        Checked::Both(f, g) => holds(f.get(), row) && holds(g.get(), row),
        Checked::Either(f, g) => holds(f.get(), row) || holds(g.get(), row),
        Checked::Not(f) => !holds(f.get(), row),
    }
}

/// Whether the row passes a test.
fn passes(column: u16, cmp: Cmp, value: &Value, row: &Row) -> bool
    ensures { result ≡ cell_holds cmp (slice_get row.now column) value.now }
{
    let values = row.values();
    let at = column as usize;
    at < values.len() && compares(cmp, values[at].compare(value))
}

/// Whether the comparison holds of two values in this order.
pub fn compares(cmp: Cmp, order: Ordering) -> bool
    ensures { result ≡ test_holds cmp order }
{
    match cmp {
        Cmp::Eq => order.is_eq(),
        Cmp::Ne => order.is_ne(),
        Cmp::Lt => order.is_lt(),
        Cmp::Le => order.is_le(),
        Cmp::Gt => order.is_gt(),
        Cmp::Ge => order.is_ge(),
    }
}
