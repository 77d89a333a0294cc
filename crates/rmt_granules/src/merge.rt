//! Sorted parts merged into one.
ghost use Rattle.std.specs.Prelude.{◌≡◌, ◌<◌, length, map, slice_get, true, IfOk};
ghost use Rattle.std.specs.Arc.{arc_value};
ghost use Rattle.std.specs.List.{All};
ghost use Rattle.std.specs.Option.{option_map};
ghost use Rattle.std.specs.declared.option.Option.TheVariants.{Some};
ghost use Rattle.rmt_values.specs.Rows.{fits, in_key_order, kind_at};
ghost use Rattle.rmt_columns.specs.Columns.{value_of};
ghost use Rattle.rmt_columns.specs.RowsByColumn.{kinds_in};
ghost use Rattle.rmt_granules.specs.MadePart.{data_of};
ghost use Rattle.rmt_granules.specs.MergedData.{AreDataOf, rows_joined};
ghost use Rattle.rmt_granules.specs.Places.{row_in, AreOf, cells_of, columns_from};

use crate::part_data::{PartData, from_rows};
use crate::place::Place;
use crate::places::{leading_of, merged_places};
use rmt_columns::{ColumnValues, Rows, ValueRef};
use rmt_values::{Kind, Schema};
use std::alloc::{AllocError, Global};
use std::sync::Arc;

/// Merges parts of a schema into one: its rows are theirs in the order of the key, and rows of equal keys are in the
/// order of the parts, then of their place. For n rows of k parts it compares at most n times as many rows as k can be
/// halved, and none where each part's rows come after those of the parts before it. At an error no memory was left.
pub fn merged(
    alloc: Global,
    parts: &[Arc<PartData, Global>],
    schema: &Schema,
) -> Result<PartData, AllocError>
    requires { AreDataOf schema.now (map arc_value parts.now) }
    ensures { IfOk result (λ part. part
        ≡ data_of schema.now (in_key_order schema.now (rows_joined (map arc_value parts.now)))) }
{
    let leading = leading_of(alloc, parts, schema)?;
    let places = merged_places(alloc, parts, &leading, schema, 0, parts.len())?;
    let rows = rows_in(alloc, parts, schema, &places)?;
    let part = from_rows(alloc, rows, schema)?;
    Ok(part)
}

/// The rows at places of parts.
fn rows_in(
    alloc: Global,
    parts: &[Arc<PartData, Global>],
    schema: &Schema,
    places: &[Place],
) -> Result<Rows, AllocError>
    requires there { AreOf (length parts.now) places.now }
    requires fit { All (λ row. fits schema.now.columns row ≡ true) (map (row_in (map arc_value parts.now)) places.now) }
    ensures rows { IfOk result (λ made. made.rows ≡ map (row_in (map arc_value parts.now)) places.now) }
    ensures kinds { IfOk result (λ made. made.kinds ≡ kinds_in schema.now.columns) }
{
    let columns = columns_in(alloc, parts, schema, places)?;
    Ok(Rows::of_columns(columns, places.len()))
}

/// The columns of the rows at places of parts.
fn columns_in(
    alloc: Global,
    parts: &[Arc<PartData, Global>],
    schema: &Schema,
    places: &[Place],
) -> Result<Vec<ColumnValues>, AllocError>
    requires there { AreOf (length parts.now) places.now }
    requires fit { All (λ row. fits schema.now.columns row ≡ true) (map (row_in (map arc_value parts.now)) places.now) }
    ensures { IfOk result (λ made. made.items
        ≡ columns_from 0 schema.now.columns (map (row_in (map arc_value parts.now)) places.now)) }
{
    let count = schema.columns().len();
    let mut made = Vec::with_capacity(alloc, count)?;
    'columns: for at in 0..count {
        made.push(column_in(alloc, parts, schema, at as u16, places)?)?;
    }
    Ok(made)
}

/// The values of one column, counted from 0, in the rows at places of parts.
fn column_in(
    alloc: Global,
    parts: &[Arc<PartData, Global>],
    schema: &Schema,
    at: u16,
    places: &[Place],
) -> Result<ColumnValues, AllocError>
    requires at { at < length schema.now.columns }
    requires there { AreOf (length parts.now) places.now }
    requires fit { All (λ row. fits schema.now.columns row ≡ true) (map (row_in (map arc_value parts.now)) places.now) }
    ensures kind { IfOk result (λ column. kind_at schema.now.columns at ≡ Some column.kind) }
    ensures values { IfOk result (λ column. column.values
        ≡ cells_of at (map (row_in (map arc_value parts.now)) places.now)) }
{
    let kind = schema.columns()[at as usize].kind;
    let bytes = match kind {
        Kind::Text => bytes_in(parts, at, places),
        Kind::UInt64 | Kind::Int64 => 0,
    };
    let mut column = ColumnValues::with_capacity(alloc, kind, places.len(), bytes)?;
    'places: for place in places {
        if let Some(value) = cell_at(parts, *place, at) {
            column.push(value)?;
        }
    }
    Ok(column)
}

/// How many bytes the Strings of one column have in the rows at places of parts, where no number is too great for that.
fn bytes_in(parts: &[Arc<PartData, Global>], at: u16, places: &[Place]) -> usize
    requires { AreOf (length parts.now) places.now }
{
    let mut bytes: usize = 0;
    'places: for place in places {
        if let Some(ValueRef::Text(text)) = cell_at(parts, *place, at) {
            bytes = bytes.saturating_add(text.len());
        }
    }
    bytes
}

/// The value of one column, counted from 0, in the row at a place of parts, where there is one.
fn cell_at<'a>(parts: &'a [Arc<PartData, Global>], place: Place, at: u16) -> Option<ValueRef<'a>>
    requires { place.part < length parts.now }
    ensures { option_map value_of result ≡ slice_get (row_in (map arc_value parts.now) place) at }
{
    parts[place.part].data().value(place.row, at)
}
