//! Rows of literals.
ghost use Rattle.std.specs.Prelude.{◌≡◌, ◌<◌, ◌⊎◌, IfOk, IfErr, length, Ok};
ghost use Rattle.rmt_values.specs.Literals.{literal_value};
ghost use Rattle.std.specs.Option.{option_map};
ghost use Rattle.rmt_columns.specs.Columns.{value_of};
ghost use Rattle.rmt_columns.specs.RowsByColumn.{kinds_in};
ghost use Rattle.rmt_sql_rows.specs.InsertedRows.{cell_at, row_of as row_in, rows_from};
ghost use Rattle.rmt_sql_rows.specs.Inserts.{IsBadRow};

use crate::cells::{Cells, push_row};
use crate::rows_error::RowsError;
use crate::values::{number_ref, text_ref};
use rmt_columns::{Rows, RowsBuilder, ValueRef};
use rmt_list::List;
use rmt_values::{Column, Kind, Literal};
use std::alloc::Global;

impl Cells for List<Literal> {
    ghost count = { λ cells. length cells };

    ghost value = { λ cells. cell_at literal_value cells };

    fn len(&self) -> usize {
        self.as_slice().len()
    }

    fn value_in(&self, kind: Kind, place: usize) -> Option<ValueRef<'_>> {
        match self.as_slice().get(place) {
            Some(cell) => literal_ref(kind, cell),
            None => None,
        }
    }
}

/// The value of a literal in a column of this type, if it has one there.
fn literal_ref(kind: Kind, literal: &Literal) -> Option<ValueRef<'_>>
    ensures { option_map value_of result ≡ literal_value kind literal.now }
{
    match literal {
        Literal::Number { minus, size } => number_ref(kind, *minus, *size),
        Literal::Text(text) => text_ref(kind, text.as_bytes()),
    }
}

/// The rows of an INSERT's tuples, whose cells are for the columns at these places. BadRow counts from 1.
pub fn rows_of_tuples(
    alloc: Global,
    columns: &[Column],
    places: &[Option<usize>],
    named: usize,
    tuples: &[List<Literal>],
) -> Result<Rows, RowsError>
    requires places { length places.now ≡ length columns.now }
    requires some { 0 < length columns.now }
    ensures ok { IfOk result (λ all.
        rows_from (row_in literal_value columns.now places.now named) 1 tuples.now ≡ Ok all.rows) }
    ensures kinds { IfOk result (λ all. all.kinds ≡ kinds_in columns.now) }
    ensures refused { IfErr result (λ e. (e ≡ RowsError.Memory)
        ⊎ IsBadRow e (rows_from (row_in literal_value columns.now places.now named) 1 tuples.now)) }
{
    let mut builder = RowsBuilder::new(alloc, columns)?;
    'tuples: for i in 0..tuples.len() {
        if !push_row(&mut builder, columns, places, named, &tuples[i])? {
            return Err(RowsError::BadRow(i as u64 + 1));
        }
    }
    Ok(builder.into_rows())
}
