//! The columns that an INSERT names.
ghost use Rattle.std.specs.Prelude.{◌≡◌, IfOk};
ghost use Rattle.rmt_sql_rows.specs.InsertedRows.{names_refusal as refusal_of, name_from, places_in};

use crate::rows_error::RowsError;
use rmt_list::List;
use rmt_values::{Column, Name, double_name, unknown_column};
use std::alloc::{AllocError, Global};

/// Why these columns can't be named: the first that there isn't, then the first that is named twice.
pub fn names_refusal(
    alloc: Global,
    columns: &[Column],
    names: &Option<List<Name>>,
) -> Result<Option<RowsError>, AllocError>
    ensures { IfOk result (λ refusal. refusal ≡ refusal_of columns.now names.now) }
{
    match names {
        None => Ok(None),
        Some(names) => {
            if let Some(name) = unknown_column(alloc, columns, names.as_slice())? {
                return Ok(Some(RowsError::UnknownColumn(name)));
            }
            if let Some(name) = double_name(alloc, names.as_slice())? {
                return Ok(Some(RowsError::DoubleColumn(name)));
            }
            Ok(None)
        }
    }
}

/// The place of a name among these, counted from 0.
fn name_place(names: &[Name], name: &Name) -> Option<usize>
    ensures { result ≡ name_from 0 names.now name.now }
{
    'names: for i in 0..names.len() {
        if names[i].equals(name) {
            return Some(i);
        }
    }
    None
}

/// For each column the place of its value in the rows of the INSERT, none where it is left out.
pub fn places_of(
    alloc: Global,
    names: &[Name],
    columns: &[Column],
) -> Result<Vec<Option<usize>>, AllocError>
    ensures { IfOk result (λ places. places.items ≡ places_in names.now columns.now) }
{
    let mut places = Vec::with_capacity(alloc, columns.len())?;
    'columns: for column in columns {
        places.push(name_place(names, &column.name))?;
    }
    Ok(places)
}
