//! Rows of cells, however the cells are written.
ghost use Rattle.std.specs.Prelude.{◌≡◌, ◌<◌, [], IfOk, IfSome, length, ℕ};
ghost use Rattle.std.specs.Option.{option_map};
ghost use Rattle.std.specs.declared.option.Option.{Option};
ghost use Rattle.rmt_values.specs.declared.kind.Kind.{Kind as ColumnType};
ghost use Rattle.rmt_values.specs.declared.value.Value.{Value as Cell};
ghost use Rattle.rmt_values.specs.Rows.{kind_of};
ghost use Rattle.rmt_columns.specs.Columns.{value_of};
ghost use Rattle.rmt_columns.specs.RowsByColumn.{kinds_in};
ghost use Rattle.rmt_sql_rows.specs.InsertedRows.{value_at as value_at_of, row_values, row_with};
ghost use Rattle.rmt_sql_rows.specs.PutRows.{PutsRow, PutsValues};

use crate::values::absent;
use rmt_columns::{RowsBuilder, ValueRef};
use rmt_values::{Column, Kind};
use std::alloc::AllocError;

/// The cells of one row of an INSERT.
pub trait Cells {
    /// How many there are.
    ghost count: { Self → ℕ };

    /// The value that the cell at a place has in a column of a type, if there is such a cell and value.
    ghost value: { Self → ColumnType → ℕ → Option Cell };

    /// How many cells there are.
    fn len(&self) -> usize
        ensures len { result ≡ count self.now };

    /// The value of the cell at a place in a column of this type, if it has one there.
    fn value_in(&self, kind: Kind, place: usize) -> Option<ValueRef<'_>>
        ensures value { option_map value_of result ≡ value self.now kind place }
        ensures typed { IfSome result (λ v. kind_of (value_of v) ≡ kind) };
}

/// The value of a column.
fn value_at<C: Cells>(kind: Kind, place: Option<usize>, cells: &C) -> Option<ValueRef<'_>>
    ensures value { option_map value_of result ≡ value_at_of (C.value cells.now) kind place }
    ensures typed { IfSome result (λ v. kind_of (value_of v) ≡ kind) }
{
    match place {
        Some(place) => cells.value_in(kind, place),
        None => Some(absent(kind)),
    }
}

/// Puts the values of a row's columns; false where a cell is no value of its column.
fn push_values<C: Cells>(
    builder: &mut RowsBuilder,
    columns: &[Column],
    places: &[Option<usize>],
    cells: &C,
) -> Result<bool, AllocError>
    requires places { length places.now ≡ length columns.now }
    requires none { builder.old.begun ≡ [] }
    requires kinds { builder.old.kinds ≡ kinds_in columns.now }
    ensures { IfOk result (λ there.
        PutsValues there (row_values (C.value cells.now) columns.now places.now) builder.old builder.new) }
{
    'columns: for i in 0..columns.len() {
        let Some(value) = value_at(columns[i].kind, places[i], cells) else {
            return Ok(false);
        };
        builder.push(value)?;
    }
    Ok(true)
}

/// Puts the row of some cells; false where they are not as many as columns are named, or one is no value of its column.
/// The builder is of no use then, nor at an error.
pub fn push_row<C: Cells>(
    builder: &mut RowsBuilder,
    columns: &[Column],
    places: &[Option<usize>],
    named: usize,
    cells: &C,
) -> Result<bool, AllocError>
    requires places { length places.now ≡ length columns.now }
    requires none { builder.old.begun ≡ [] }
    requires kinds { builder.old.kinds ≡ kinds_in columns.now }
    requires some { 0 < length columns.now }
    ensures { IfOk result (λ there.
        PutsRow there (row_with (C.value cells.now) (C.count cells.now) columns.now places.now named) builder.old builder.new) }
{
    if cells.len() != named {
        return Ok(false);
    }
    if !push_values(builder, columns, places, cells)? {
        return Ok(false);
    }
    builder.end_row();
    Ok(true)
}
