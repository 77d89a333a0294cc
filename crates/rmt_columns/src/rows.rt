ghost use Rattle.std.specs.Prelude.{◌≡◌, ◌<◌, ◌↔◌, [], true, length, slice_get, get_or, IfOk, IfSome, IsTrue};
ghost use Rattle.std.specs.List.{All};
ghost use Rattle.std.specs.Option.{option_map};
ghost use Rattle.std.specs.declared.option.Option.TheVariants.{None, Some};
ghost use Rattle.rmt_values.specs.declared.kind.Kind.TheVariants.{UInt64};
ghost use Rattle.rmt_values.specs.Order.{in_order};
ghost use Rattle.rmt_values.specs.Rows.{AllBelow, fits, key_cmp};
ghost use Rattle.rmt_columns.specs.Columns.{value_of};
ghost use Rattle.rmt_columns.specs.Leading.{AreLeading, led, pulled};
ghost use Rattle.rmt_columns.specs.Places.{at_places};
ghost use Rattle.rmt_columns.specs.RowsByColumn.{AreLong, AreTyped, HaveKinds, kinds_in, kinds_of, rows_of};

use crate::cell_order::{order_of_rows, places_to, row_at};
use crate::column_values::ColumnValues;
use crate::rows_builder::RowsBuilder;
use crate::value_ref::ValueRef;
use rmt_values::{Column, Row, Schema};
use std::alloc::{AllocError, Global};
use std::cmp::Ordering;
use std::marker::Model;

/// Rows held by column. Contracts see them as a `RowsView`.
#[derive(Debug, Drop)]
pub struct Rows {
    columns: Vec<ColumnValues>,
    count: usize,
}

impl Model for Rows {
    ghost use Rattle.rmt_columns.specs.RowsByColumn.{AreLong, AreTyped, RowsView, rows_held};

    ghost Value = { RowsView };

    ghost view = { λ r. rows_held r.count r.columns.items };

    ghost invariant = { λ r. AreLong r.count r.columns.items × AreTyped r.columns.items };
}

impl Rows {
    /// The rows of columns that have so many values each.
    pub fn of_columns(columns: Vec<ColumnValues>, count: usize) -> Rows
        requires long { AreLong count columns.items }
        requires typed { AreTyped columns.items }
        ensures kinds { result.kinds ≡ kinds_of columns.items }
        ensures rows { result.rows ≡ rows_of count columns.items }
    {
        Rows { columns, count }
    }

    /// Copies these rows, which have values of these columns.
    pub fn from_rows(alloc: Global, rows: &[Row], columns: &[Column]) -> Result<Rows, AllocError>
        requires fit { All (λ row. fits columns.now row ≡ true) rows.now }
        requires some { 0 < length columns.now }
        ensures kinds { IfOk result (λ all. all.kinds ≡ kinds_in columns.now) }
        ensures rows { IfOk result (λ all. all.rows ≡ rows.now) }
    {
        let mut builder = RowsBuilder::new(alloc, columns)?;
        'rows: for row in rows {
            builder.push_row(row)?;
        }
        Ok(builder.into_rows())
    }

    /// Copies these rows of a schema; none where one of them doesn't fit it.
    pub fn of_rows(alloc: Global, rows: &[Row], schema: &Schema) -> Result<Option<Rows>, AllocError>
        ensures rows { IfOk result (λ made. IfSome made (λ all. all.rows ≡ rows.now)) }
        ensures kinds { IfOk result (λ made. IfSome made (λ all. all.kinds ≡ kinds_in schema.now.columns)) }
        ensures fit { IfOk result (λ made. IfSome made (λ _. All (λ row. fits schema.now.columns row ≡ true) rows.now)) }
        ensures none { IfOk result (λ made. made ≡ None → All (λ row. fits schema.now.columns row ≡ true) rows.now → ⊥) }
    {
        if !all_fit(rows, schema) {
            return Ok(None);
        }
        let columns = schema.columns();
        Ok(Some(Rows::from_rows(alloc, rows, columns)?))
    }

    /// How many rows there are.
    pub fn len(&self) -> usize
        ensures count { result ≡ length self.now.rows }
        ensures typed { HaveKinds self.now.kinds self.now.rows }
    {
        self.count
    }

    /// The columns, in their order.
    pub fn columns(&self) -> &[ColumnValues]
        ensures rows { rows_of (length self.now.rows) result.now ≡ self.now.rows }
        ensures kinds { kinds_of result.now ≡ self.now.kinds }
        ensures long { AreLong (length self.now.rows) result.now }
        ensures typed { AreTyped result.now }
    {
        &self.columns
    }

    /// The value of row `i` in a column, both counted from 0, where there is one.
    pub fn value(&self, i: usize, column: u16) -> Option<ValueRef<'_>>
        ensures { option_map value_of result ≡ slice_get (get_or self.now.rows i []) column }
    {
        let at = column as usize;
        if at >= self.columns.len() {
            return None;
        }
        self.columns[at].get(i)
    }

    /// A copy of row `i`, counted from 0; `None` where there is no such row.
    pub fn row(&self, alloc: Global, i: usize) -> Result<Option<Row>, AllocError>
        ensures { IfOk result (λ row. row ≡ slice_get self.now.rows i) }
    {
        if i >= self.count {
            return Ok(None);
        }
        let row = row_at(alloc, &self.columns, i)?;
        Ok(Some(row))
    }

    /// The order of row `i` and row `j` of others with the same types, both counted from 0, by their values in these columns,
    /// from left to right. A row that is missing has no value, and comes first.
    pub fn order(&self, key: &[u16], i: usize, other: &Rows, j: usize) -> Ordering
        requires { other.now.kinds ≡ self.now.kinds }
        ensures { result ≡ key_cmp key.now (get_or self.now.rows i []) (get_or other.now.rows j []) }
    {
        match (self.leading_numbers(key), other.leading_numbers(key)) {
            (Some(left), Some(right)) => self.order_led(key, left, i, other, right, j),
            (Some(_), None) | (None, Some(_)) | (None, None) => self.order_by_all(key, i, other, j),
        }
    }

    /// The numbers of the first of these columns, in the order of the rows, where there is one and its type is UInt64: rows are
    /// ordered by them first.
    pub fn leading_numbers(&self, key: &[u16]) -> Option<&[u64]>
        ensures some { IfSome result (λ numbers. AreLeading key.now self.now.rows numbers.now) }
        ensures none { result ≡ None → 0 < length key.now → slice_get self.now.kinds (get_or key.now 0 0) ≡ Some UInt64 → ⊥ }
    {
        if key.is_empty() {
            return None;
        }
        let first = key[0] as usize;
        if first >= self.columns.len() {
            return None;
        }
        self.columns[first].unsigned()
    }

    /// The places of the rows, counted from 0, in the order of the rows by their values in these columns; rows that are equal
    /// there keep their order.
    pub fn places_in_order(&self, alloc: Global, key: &[u16]) -> Result<Vec<usize>, AllocError>
        ensures order { IfOk result (λ places. at_places self.now.rows places.items ≡ in_order (key_cmp key.now) self.now.rows) }
        ensures there { IfOk result (λ places. AllBelow (length self.now.rows) places.items) }
    {
        let places = places_to(alloc, self.count)?;
        let sorted = self.sorted(key, places)?;
        Ok(sorted)
    }

    /// Returns a copy.
    pub fn copy(&self) -> Result<Rows, AllocError>
        ensures { IfOk result (λ other. other ≡ self.now) }
    {
        let all = self.columns.as_slice();
        let mut columns = Vec::with_capacity(*self.columns.allocator(), all.len())?;
        'columns: for column in all {
            columns.push(column.copy()?)?;
        }
        Ok(Rows {
            columns,
            count: self.count,
        })
    }

    /// What `order` says, where the numbers of the first column are at hand: the other columns are read only where these are
    /// equal.
    fn order_led(
        &self,
        key: &[u16],
        left: &[u64],
        i: usize,
        other: &Rows,
        right: &[u64],
        j: usize,
    ) -> Ordering
        requires { other.now.kinds ≡ self.now.kinds }
        ensures { result ≡ led (slice_get left.now i) (slice_get right.now j) (key_cmp key.now (get_or self.now.rows i []) (get_or other.now.rows j [])) }
    {
        match (left.get(i), right.get(j)) {
            (Some(a), Some(b)) => match a.cmp(b) {
                Ordering::Equal => self.order_by_all(key, i, other, j),
                unequal => unequal,
            },
            (Some(_), None) | (None, Some(_)) | (None, None) => self.order_by_all(key, i, other, j),
        }
    }

    /// What `order` says, value by value.
    fn order_by_all(&self, key: &[u16], i: usize, other: &Rows, j: usize) -> Ordering
        requires { other.now.kinds ≡ self.now.kinds }
        ensures { result ≡ key_cmp key.now (get_or self.now.rows i []) (get_or other.now.rows j []) }
    {
        order_of_rows(key, &self.columns, i, &other.columns, j)
    }

    /// The places in the order of the rows there.
    fn sorted(&self, key: &[u16], places: Vec<usize>) -> Result<Vec<usize>, AllocError>
        ensures { IfOk result (λ sorted. sorted.items ≡ in_order (pulled (λ i. get_or self.now.rows i []) (key_cmp key.now)) places.items) }
    {
        match self.leading_numbers(key) {
            Some(numbers) => self.sorted_by_numbers(key, numbers, places),
            None => self.sorted_by_all(key, places),
        }
    }

    /// What `sorted` says, value by value.
    fn sorted_by_all(&self, key: &[u16], places: Vec<usize>) -> Result<Vec<usize>, AllocError>
        ensures { IfOk result (λ sorted. sorted.items ≡ in_order (pulled (λ i. get_or self.now.rows i []) (key_cmp key.now)) places.items) }
    {
        let mut sorted = places;
        sorted.sort_by(|i, j| self.order_by_all(key, *i, self, *j))?;
        Ok(sorted)
    }

    /// What `sorted` says, where the numbers of the first column are at hand.
    fn sorted_by_numbers(
        &self,
        key: &[u16],
        numbers: &[u64],
        places: Vec<usize>,
    ) -> Result<Vec<usize>, AllocError>
        requires { AreLeading key.now self.now.rows numbers.now }
        ensures { IfOk result (λ sorted. sorted.items ≡ in_order (pulled (λ i. get_or self.now.rows i []) (key_cmp key.now)) places.items) }
    {
        let mut sorted = places;
        sorted.sort_by(|i, j| self.order_led(key, numbers, *i, self, numbers, *j))?;
        Ok(sorted)
    }

    /// The rows at these places, counted from 0, in the order of the places.
    pub fn gather(&self, alloc: Global, places: &[usize]) -> Result<Rows, AllocError>
        requires { AllBelow (length self.now.rows) places.now }
        ensures { IfOk result (λ some. some ≡ record self.now { rows = at_places self.now.rows places.now }) }
    {
        let mut columns = Vec::with_capacity(alloc, self.columns.len())?;
        let all = self.columns.as_slice();
        'columns: for column in all {
            columns.push(column.gather(alloc, places)?)?;
        }
        Ok(Rows {
            columns,
            count: places.len(),
        })
    }
}

/// Whether each row has a value of its type for each column.
fn all_fit(rows: &[Row], schema: &Schema) -> bool
    ensures { IsTrue result ↔ All (λ row. fits schema.now.columns row ≡ true) rows.now }
{
    rows.iter().all(|row| schema.fits(row))
}
