//! Numbers added up.
ghost use Rattle.std.specs.Prelude.{◌≡◌, ◌^◌, ℕ, pos, ◌+ℤ◌, ◌≤ℤ◌, sum, slice_get};
ghost use Rattle.std.specs.Option.{option_map};
ghost use Rattle.std.specs.declared.option.Option.TheVariants.{Some};
ghost use Rattle.rmt_values.specs.declared.kind.Kind.TheVariants.{UInt64};
ghost use Rattle.rmt_values.specs.declared.value.Value.TheVariants.{UInt};
ghost use Rattle.rmt_columns.specs.Columns.{value_of};
ghost use Rattle.rmt_query.specs.Cells.{number_of};
ghost use Rattle.rmt_query.specs.OverRows.{total};

use crate::cells::number;
use rmt_columns::{RowRef, Rows, ValueRef};

/// These numbers, added up.
pub fn sum_of_numbers(numbers: &[u64]) -> i128
    ensures { result ≡ pos (sum numbers.now) }
{
    let mut total: i128 = 0;
    'numbers: for number in numbers {
        total += i128::from(*number);
    }
    total
}

/// The numbers of the rows in a column whose type isn't UInt64, added up.
pub fn sum_of_signed(rows: &Rows, column: u16) -> i128
    requires { slice_get rows.now.kinds column ≡ Some UInt64 → ⊥ }
    ensures { result ≡ total column rows.now.rows }
{
    let mut sum: i128 = 0;
    'rows: for i in 0..rows.len() {
        sum += signed(rows.value(i, column));
    }
    sum
}

/// The number that a value is, and 0 for what is none; the value isn't one of UInt64.
fn signed(value: Option<ValueRef<'_>>) -> i128
    requires { (n : ℕ) → option_map value_of value ≡ Some (UInt n) → ⊥ }
    ensures value { result ≡ number_of (option_map value_of value.entry) }
    ensures least { pos 0 ≤ℤ (result +ℤ pos (2 ^ 63)) }
    ensures greatest { result ≤ℤ pos (2 ^ 63) }
{
    let Some(value) = value else {
        return 0;
    };
    match value {
        ValueRef::Int(number) => i128::from(number),
        ValueRef::Text(_) => 0,
        ValueRef::UInt(_) => unreachable!(),
    }
}

/// The numbers of these rows in a column, added up.
pub fn sum_of_listed(rows: &[RowRef<'_>], column: u16) -> i128
    ensures { result ≡ total column rows.now }
{
    let mut sum: i128 = 0;
    'rows: for row in rows {
        sum += number(row.value(column));
    }
    sum
}
