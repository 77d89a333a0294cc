ghost use Rattle.std.specs.Prelude.{◌≡◌, ◌<◌, [], ◌∷◌, ◌++◌, map, length, slice_get, IfOk, OnOk, OnErr};
ghost use Rattle.std.specs.declared.option.Option.TheVariants.{Some};
ghost use Rattle.rmt_values.specs.Rows.{kind_of};
ghost use Rattle.rmt_columns.specs.Columns.{value_of};
ghost use Rattle.rmt_columns.specs.RowsByColumn.{kinds_in, no_values};

use crate::column_values::ColumnValues;
use crate::rows::Rows;
use crate::value_ref::ValueRef;
use rmt_values::{Column, Row};
use std::alloc::{AllocError, Global};
use std::marker::Model;

/// Rows held by column to which rows are added, value by value. Contracts see them as a `BegunView`.
#[derive(Debug, Drop)]
pub struct RowsBuilder {
    columns: Vec<ColumnValues>,
    count: usize,
    begun: usize,
}

impl Model for RowsBuilder {
    ghost use Rattle.rmt_columns.specs.RowsByColumn.{AreBegun, AreTyped, BegunView, rows_begun};

    ghost Value = { BegunView };

    ghost view = { λ b. rows_begun b.count b.begun b.columns.items };

    ghost invariant = { λ b. AreBegun b.count b.begun b.columns.items × AreTyped b.columns.items };
}

impl RowsBuilder {
    /// Begins with no rows of these columns.
    pub fn new(alloc: Global, columns: &[Column]) -> Result<RowsBuilder, AllocError>
        ensures { IfOk result (λ builder. builder ≡ record { kinds = kinds_in columns.now; rows = []; begun = [] }) }
    {
        let columns = empty_columns(alloc, columns)?;
        Ok(RowsBuilder {
            columns,
            count: 0,
            begun: 0,
        })
    }

    /// How many rows there are; one that is begun doesn't count.
    pub fn len(&self) -> usize
        ensures { result ≡ length self.now.rows }
    {
        self.count
    }

    /// Puts the next value of a row. It has the type of its column. At an error nothing is put.
    pub fn push(&mut self, value: ValueRef<'_>) -> Result<(), AllocError>
        requires { slice_get self.old.kinds (length self.old.begun) ≡ Some (kind_of (value_of value)) }
        ensures ok { OnOk result (self.new ≡ record self.old { begun = self.old.begun ++ value_of value.entry ∷ [] }) }
        ensures err { OnErr result (self.new ≡ self.old) }
    {
        self.columns[self.begun].push(value)?;
        self.begun += 1;
        Ok(())
    }

    /// Puts a copy of a row. At an error some of its values may be put: the builder is of no use then.
    pub fn push_row(&mut self, row: &Row) -> Result<(), AllocError>
        requires none { self.old.begun ≡ [] }
        requires kinds { map kind_of row.now ≡ self.old.kinds }
        requires some { 0 < length self.old.kinds }
        ensures ok { OnOk result (self.new ≡ record self.old { rows = self.old.rows ++ row.now ∷ [] }) }
    {
        let values = row.values();
        'values: for value in values {
            self.push(ValueRef::of(value))?;
        }
        self.end_row();
        Ok(())
    }

    /// Ends a row that has a value for each column.
    pub fn end_row(&mut self)
        requires whole { length self.old.begun ≡ length self.old.kinds }
        requires some { 0 < length self.old.kinds }
        ensures { self.new ≡ record self.old { rows = self.old.rows ++ self.old.begun ∷ []; begun = [] } }
    {
        self.count = self.columns[0].len();
        self.begun = 0;
    }

    /// Gives the rows. None is begun.
    pub fn into_rows(self) -> Rows
        requires { self.begun ≡ [] }
        ensures kinds { result.kinds ≡ self.kinds }
        ensures rows { result.rows ≡ self.rows }
    {
        Rows::of_columns(self.columns, self.count)
    }
}

/// Columns of these types that have no values yet.
fn empty_columns(alloc: Global, columns: &[Column]) -> Result<Vec<ColumnValues>, AllocError>
    ensures { IfOk result (λ made. made.items ≡ no_values columns.now) }
{
    let mut made = Vec::with_capacity(alloc, columns.len())?;
    'columns: for column in columns {
        made.push(ColumnValues::with_capacity(alloc, column.kind, 0, 0)?)?;
    }
    Ok(made)
}
