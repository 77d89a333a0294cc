ghost use Rattle.std.specs.Prelude.{◌≡◌, [], slice_get, get_or};
ghost use Rattle.std.specs.Option.{option_map};
ghost use Rattle.rmt_values.specs.Rows.{key_cmp, cell_cmp};
ghost use Rattle.rmt_columns.specs.Columns.{value_of};

use crate::rows::Rows;
use crate::value_ref::ValueRef;
use rmt_values::Row;
use std::cmp::Ordering;
use std::marker::Model;

/// A row, where it lies among rows held by column or in memory of its own. Contracts see the list of its values.
#[derive(Drop)]
pub struct RowRef<'a> {
    lies: Lies<'a>,
}

/// Where a row lies.
#[derive(Drop)]
enum Lies<'a> {
    Held(&'a Rows, usize),
    Own(Row),
}

impl<'a> Model for RowRef<'a> {
    ghost use Rattle.std.specs.Prelude.{List};
    ghost use Rattle.rmt_values.specs.declared.value.Value.{Value as OneValue};
    ghost use Rattle.rmt_columns.specs.Lying.{row_of};

    ghost Value = { List OneValue };

    ghost view = { λ r. row_of r.lies };
}

impl<'a> RowRef<'a> {
    /// Row `i` of rows held by column, counted from 0; without values where there is none.
    pub fn held(rows: &'a Rows, i: usize) -> RowRef<'a>
        ensures { result ≡ get_or rows.now.rows i [] }
    {
        RowRef {
            lies: Lies::Held(rows, i),
        }
    }

    /// A row in memory of its own.
    pub fn own(row: Row) -> RowRef<'a>
        ensures { result ≡ row }
    {
        RowRef {
            lies: Lies::Own(row),
        }
    }

    /// Its value in a column, counted from 0, where there is one.
    pub fn value(&self, column: u16) -> Option<ValueRef<'_>>
        ensures { option_map value_of result ≡ slice_get self.now column }
    {
        match &self.lies {
            Lies::Held(rows, i) => rows.value(*i, column),
            Lies::Own(row) => match row.values().get(column as usize) {
                Some(value) => Some(ValueRef::of(value)),
                None => None,
            },
        }
    }

    /// The order of two rows by their values in these columns, from left to right. A missing value comes first.
    pub fn compare_by(&self, columns: &[u16], other: &RowRef<'_>) -> Ordering
        ensures { result ≡ key_cmp columns.now self.now other.now }
    {
        'columns: for column in columns {
            match compare_cells(self.value(*column), other.value(*column)) {
                Ordering::Equal => {}
                unequal => return unequal,
            }
        }
        Ordering::Equal
    }
}

/// The order of two values, where they are there; a missing one comes first.
fn compare_cells(a: Option<ValueRef<'_>>, b: Option<ValueRef<'_>>) -> Ordering
    ensures { result ≡ cell_cmp (option_map value_of a.entry) (option_map value_of b.entry) }
{
    match (a, b) {
        (Some(a), Some(b)) => a.order(b),
        (Some(_), None) => Ordering::Greater,
        (None, Some(_)) => Ordering::Less,
        (None, None) => Ordering::Equal,
    }
}
