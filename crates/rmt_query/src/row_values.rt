//! Rows whose values are read, wherever they lie.
ghost use Rattle.std.specs.Prelude.{◌≡◌, List, [], length, slice_get, get_or};
ghost use Rattle.std.specs.Option.{option_map};
ghost use Rattle.rmt_values.specs.declared.value.Value.{Value as OneValue};
ghost use Rattle.rmt_columns.specs.Columns.{value_of};
ghost use Rattle.rmt_query.specs.OverRows.{total};

use crate::sums::{sum_of_listed, sum_of_numbers, sum_of_signed};
use rmt_columns::{RowRef, Rows, ValueRef};

/// Rows whose values are read one by one.
pub trait RowValues {
    /// The rows.
    ghost rows: { Self → List (List OneValue) };

    /// How many there are.
    fn len(&self) -> usize
        ensures len { result ≡ length (rows self.now) };

    /// The value of row `i` in a column, both counted from 0, where there is one.
    fn value(&self, i: usize, column: u16) -> Option<ValueRef<'_>>
        ensures value { option_map value_of result ≡ slice_get (get_or (rows self.now) i []) column };

    /// The numbers of the rows in a column, added up.
    fn sum(&self, column: u16) -> i128
        ensures sum { result ≡ total column (rows self.now) };
}

impl RowValues for Rows {
    ghost rows = { λ r. r.rows };

    fn len(&self) -> usize {
        Rows::len(self)
    }

    fn value(&self, i: usize, column: u16) -> Option<ValueRef<'_>> {
        Rows::value(self, i, column)
    }

    fn sum(&self, column: u16) -> i128 {
        match self.leading_numbers(&[column]) {
            Some(numbers) => sum_of_numbers(numbers),
            None => sum_of_signed(self, column),
        }
    }
}

/// Rows that are listed one by one.
#[derive(Clone, Copy)]
pub struct Listed<'a, 'r>(pub &'a [RowRef<'r>]);

impl<'a, 'r> RowValues for Listed<'a, 'r> {
    ghost rows = { λ l. l.0.now };

    fn len(&self) -> usize {
        self.0.len()
    }

    fn value(&self, i: usize, column: u16) -> Option<ValueRef<'_>> {
        match self.0.get(i) {
            Some(row) => row.value(column),
            None => None,
        }
    }

    fn sum(&self, column: u16) -> i128 {
        sum_of_listed(self.0, column)
    }
}
