ghost use Rattle.std.specs.Prelude.{◌≡◌, slice_get, IfOk};
ghost use Rattle.rmt_values.specs.Rows.{cell_cmp, key_cmp};

use crate::value::Value;
use std::alloc::AllocError;
use std::cmp::Ordering;
use std::marker::Model;

/// A row: a value for each column. Contracts see the list of its values.
#[derive(Debug, Drop)]
pub struct Row {
    values: Vec<Value>,
}

impl Model for Row {
    ghost use Rattle.std.specs.Prelude.{List};
    ghost use Rattle.rmt_values.specs.declared.value.Value.{Value as OneValue};

    ghost Value = { List OneValue };

    ghost view = { λ r. r.values.items };
}

impl Row {
    /// Makes a row of these values.
    pub fn new(values: Vec<Value>) -> Row
        ensures { result ≡ values.items }
    {
        Row { values }
    }

    /// Returns a copy.
    pub fn copy(&self) -> Result<Row, AllocError>
        ensures { IfOk result (λ other. other ≡ self.now) }
    {
        let mut values = Vec::with_capacity(*self.values.allocator(), self.values.len())?;
        let all = self.values();
        'values: for value in all {
            values.push(value.copy()?)?;
        }
        Ok(Row { values })
    }

    /// Its values, in the order of the columns.
    pub fn values(&self) -> &[Value]
        ensures { result.now ≡ self.now }
    {
        &self.values
    }

    /// Gives its values back, in the order of the columns.
    pub fn into_values(self) -> Vec<Value>
        ensures { result.items ≡ self }
    {
        self.values
    }

    /// The order of two rows by their values in these columns, from left to right. Columns are places, counted from 0.
    pub fn compare_by(&self, columns: &[u16], other: &Row) -> Ordering
        ensures { result ≡ key_cmp columns.now self.now other.now }
    {
        'columns: for column in columns {
            match self.compare_at(*column, other) {
                Ordering::Equal => {}
                unequal => return unequal,
            }
        }
        Ordering::Equal
    }

    /// The order of two rows by their values in a column; a missing one comes first.
    fn compare_at(&self, column: u16, other: &Row) -> Ordering
        ensures { result ≡ cell_cmp (slice_get self.now column) (slice_get other.now column) }
    {
        let at = column as usize;
        match (self.values().get(at), other.values().get(at)) {
            (Some(a), Some(b)) => a.compare(b),
            (Some(_), None) => Ordering::Greater,
            (None, Some(_)) => Ordering::Less,
            (None, None) => Ordering::Equal,
        }
    }
}
