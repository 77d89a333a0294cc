//! The new values of a row that is held by column. They take no memory.
ghost use Rattle.std.specs.Prelude.{◌≡◌, [], slice_get, get_or};
ghost use Rattle.std.specs.Option.{option_map};
ghost use Rattle.std.specs.declared.option.Option.TheVariants.{Some};
ghost use Rattle.rmt_values.specs.Commands.{new_value, plus as added, minus as taken, cell_or};
ghost use Rattle.rmt_columns.specs.Columns.{value_of};
ghost use Rattle.rmt_expr.specs.Updates.{row_with};

use crate::changes::find;
use rmt_columns::{Rows, ValueRef};
use rmt_values::{CheckedRight, Value};

/// The value of a column of row `i` after these sets, where the row has the column.
pub fn new_cell<'a>(
    sets: &'a [(u16, CheckedRight)],
    column: u16,
    rows: &'a Rows,
    i: usize,
) -> Option<ValueRef<'a>>
    ensures { option_map value_of result ≡ slice_get (row_with sets.now rows.now.rows i) column }
{
    let old = rows.value(i, column)?;
    match find(sets, column as usize) {
        Some(right) => Some(right_at(right, rows, i, old)),
        None => Some(old),
    }
}

/// The value of a right side, read from the old row.
fn right_at<'a>(
    right: &'a CheckedRight,
    rows: &'a Rows,
    i: usize,
    old: ValueRef<'a>,
) -> ValueRef<'a>
    ensures { value_of result ≡ new_value (Some right.now) (get_or rows.now.rows i []) (value_of old.entry) }
{
    match right {
        CheckedRight::Literal(v) => ValueRef::of(v),
        CheckedRight::Column(c) => cell_at(rows, i, *c, old),
        CheckedRight::Plus { column, by } => plus_at(cell_at(rows, i, *column, old), by),
        CheckedRight::Minus { column, by } => minus_at(cell_at(rows, i, *column, old), by),
    }
}

/// The value in the column, or the old one where the row hasn't that column.
fn cell_at<'a>(rows: &'a Rows, i: usize, column: u16, old: ValueRef<'a>) -> ValueRef<'a>
    ensures { value_of result ≡ cell_or (get_or rows.now.rows i []) column (value_of old.entry) }
{
    match rows.value(i, column) {
        Some(v) => v,
        None => old,
    }
}

/// The sum modulo 2^64; of values that aren't numbers of one type, the left one.
fn plus_at<'a>(a: ValueRef<'a>, b: &Value) -> ValueRef<'a>
    ensures { value_of result ≡ added (value_of a.entry) b.now }
{
    match (a, b) {
        (ValueRef::UInt(x), Value::UInt(y)) => ValueRef::UInt(x.wrapping_add(*y)),
        (ValueRef::Int(x), Value::Int(y)) => ValueRef::Int(x.wrapping_add(*y)),
        _ => a,
    }
}

/// The difference modulo 2^64; of values that aren't numbers of one type, the left one.
fn minus_at<'a>(a: ValueRef<'a>, b: &Value) -> ValueRef<'a>
    ensures { value_of result ≡ taken (value_of a.entry) b.now }
{
    match (a, b) {
        (ValueRef::UInt(x), Value::UInt(y)) => ValueRef::UInt(x.wrapping_sub(*y)),
        (ValueRef::Int(x), Value::Int(y)) => ValueRef::Int(x.wrapping_sub(*y)),
        _ => a,
    }
}
