//! The rows of a part as bytes: granule by granule, each column by column.
ghost use Rattle.std.specs.Prelude.{◌≡◌, ◌++◌, length, slice_get, OnOk};
ghost use Rattle.std.specs.List.{flat_map, AllByRecursion};
ghost use Rattle.std.specs.Option.{option_to_list};
ghost use Rattle.rmt_bytes.specs.Encoding.{value_bytes};
ghost use Rattle.rmt_format.specs.PartBytes.{rows_bytes};
ghost use Rattle.rmt_format.specs.StoredBytes.{cells_bytes, IsHeld, CellsAreHeld, RowsAreHeld};

use rmt_columns::{ColumnValues, put_value_ref};
use rmt_granules::PartData;
use std::alloc::AllocError;

/// Appends the rows of each granule.
pub fn put_granules(out: &mut Vec<u8>, part: &PartData) -> Result<(), AllocError>
    ensures ok { OnOk result (out.new.items ≡ out.old.items ++ rows_bytes part.now) }
    ensures in_range { OnOk result (RowsAreHeld part.now.rows) }
{
    let columns = part.columns();
    let count = part.granules();
    'granules: for g in 0..count {
        if let Some((first, past)) = part.granule(g) {
            put_granule(out, columns, first, past)?;
        }
    }
    Ok(())
}

// Appends the values from row `first` to before row `past`, column by column.
fn put_granule(
    out: &mut Vec<u8>,
    columns: &[ColumnValues],
    first: usize,
    past: usize,
) -> Result<(), AllocError>
    ensures ok { OnOk result (out.new.items
        ≡ out.old.items ++ flat_map (cells_bytes first past) columns.now) }
    ensures in_range { OnOk result (AllByRecursion (CellsAreHeld first past) columns.now) }
{
    'columns: for column in columns {
        put_cells(out, column, first, past)?;
    }
    Ok(())
}

// Appends the values of a column from row `first` to before row `past`.
fn put_cells(
    out: &mut Vec<u8>,
    column: &ColumnValues,
    first: usize,
    past: usize,
) -> Result<(), AllocError>
    ensures ok { OnOk result (out.new.items ≡ out.old.items ++ cells_bytes first past column.now) }
    ensures in_range { OnOk result (CellsAreHeld first past column.now) }
{
    'cells: for i in first..past {
        put_cell(out, column, i)?;
    }
    Ok(())
}

// Appends the value of a row in a column, where there is one.
fn put_cell(out: &mut Vec<u8>, column: &ColumnValues, i: usize) -> Result<(), AllocError>
    ensures ok { OnOk result (out.new.items
        ≡ out.old.items ++ flat_map value_bytes (option_to_list (slice_get column.now.values i))) }
    ensures in_range { OnOk result
        (AllByRecursion IsHeld (option_to_list (slice_get column.now.values i))) }
{
    if let Some(value) = column.get(i) {
        put_value_ref(out, value)?;
    }
    Ok(())
}
