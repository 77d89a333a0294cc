//! All rows of an INSERT.
ghost use Rattle.std.specs.Prelude.{◌≡◌, ◌<◌, ◌⊎◌, length, IfOk, IfErr, None, Some, map, true};
ghost use Rattle.std.specs.List.{All};
ghost use Rattle.rmt_values.specs.Rows.{fits};
ghost use Rattle.rmt_values.specs.Schemas.{names_of};
ghost use Rattle.rmt_columns.specs.RowsByColumn.{kinds_in};
ghost use Rattle.rmt_sql_rows.specs.InsertedRows.{names_refusal as names_refusal_of, all_names};
ghost use Rattle.rmt_sql_rows.specs.Inserts.{AreInsertedRows, IsBadInsertRow};

use crate::names::{names_refusal, places_of};
use crate::records::rows_of_data;
use crate::rows_error::RowsError;
use crate::tuples::rows_of_tuples;
use rmt_columns::Rows;
use rmt_list::List;
use rmt_statements::{Insert, Offered};
use rmt_values::{Column, Name, Schema};
use std::alloc::{AllocError, Global};

/// The names of the columns.
fn column_names(alloc: Global, columns: &[Column]) -> Result<List<Name>, AllocError>
    ensures { IfOk result (λ names. names ≡ names_of columns.now) }
{
    let mut names = Vec::with_capacity(alloc, columns.len())?;
    'columns: for column in columns {
        names.push(column.name.copy()?)?;
    }
    Ok(List::new(names))
}

/// The rows of an INSERT for the columns named.
fn insert_rows(
    alloc: Global,
    columns: &[Column],
    named: &[Name],
    rows: &Offered,
) -> Result<Rows, RowsError>
    requires { 0 < length columns.now }
    ensures ok { IfOk result (λ all. AreInsertedRows columns.now named.now rows.now all.rows) }
    ensures kinds { IfOk result (λ all. all.kinds ≡ kinds_in columns.now) }
    ensures refused { IfErr result (λ e. (e ≡ RowsError.Memory) ⊎ IsBadInsertRow columns.now named.now rows.now e) }
{
    let places = places_of(alloc, named, columns)?;
    match rows {
        Offered::Values(tuples) => rows_of_tuples(
            alloc,
            columns,
            &places,
            named.len(),
            tuples.as_slice(),
        ),
        Offered::Csv(bytes) => rows_of_data(alloc, columns, &places, named.len(), bytes.as_bytes()),
    }
}

/// The rows of an INSERT to a table of this schema, in their order, with 0 or the empty String in columns that
/// are left out. Refused, in this order: a column that there isn't, one that is named twice, the first row that is none.
pub fn rows_of(alloc: Global, insert: &Insert, schema: &Schema) -> Result<Rows, RowsError>
    ensures ok { IfOk result (λ all. AreInsertedRows schema.now.columns (all_names schema.now.columns insert.now.columns) insert.now.rows all.rows) }
    ensures fit { IfOk result (λ all. All (λ row. fits schema.now.columns row ≡ true) all.rows) }
    ensures kinds { IfOk result (λ all. all.kinds ≡ kinds_in schema.now.columns) }
    ensures known { IfOk result (λ _. names_refusal_of schema.now.columns insert.now.columns ≡ None) }
    ensures refused { IfErr result (λ e. (e ≡ RowsError.Memory)
        ⊎ ((names_refusal_of schema.now.columns insert.now.columns ≡ Some e)
        ⊎ ((names_refusal_of schema.now.columns insert.now.columns ≡ None)
        × IsBadInsertRow schema.now.columns (all_names schema.now.columns insert.now.columns) insert.now.rows e))) }
{
    let columns = schema.columns();
    if let Some(refusal) = names_refusal(alloc, columns, &insert.columns)? {
        return Err(refusal);
    }
    match &insert.columns {
        Some(named) => insert_rows(alloc, columns, named.as_slice(), &insert.rows),
        None => {
            let named = column_names(alloc, columns)?;
            insert_rows(alloc, columns, named.as_slice(), &insert.rows)
        }
    }
}
