//! The rows of a part from bytes: granule by granule, each column by column.
ghost use Rattle.std.specs.Prelude.{◌≡◌, ◌≤◌, ℕ, ◌++◌, List, length, IfOk};
ghost use Rattle.rmt_bytes.specs.Decoding.{Decodes};
ghost use Rattle.rmt_columns.specs.RowsByColumn.{kinds_in, no_values};
ghost use Rattle.rmt_format.specs.PartBytes.{head_bytes};
ghost use Rattle.rmt_format.specs.PartDecoding.{
  IsReadAs,
  decode_columns,
  decode_all,
  decode_rows,
};

use crate::cells::read_cells;
use crate::head::put_head;
use rmt_bytes::{DecodeError, read_u32};
use rmt_columns::{ColumnValues, Rows};
use rmt_values::{Column, Schema};
use std::alloc::{AllocError, Global};

/// What comes after the head of the schema's parts.
pub fn after_head<'a>(
    alloc: Global,
    bytes: &'a [u8],
    schema: &Schema,
) -> Result<&'a [u8], DecodeError>
    ensures { (rest : List ℕ) → bytes.now ≡ head_bytes schema.now ++ rest
        → IsReadAs (λ x. x.now) rest result }
{
    let mut head = Vec::new(alloc);
    put_head(&mut head, schema)?;
    match bytes.strip_prefix(head.as_slice()) {
        Some(rest) => Ok(rest),
        None => Err(DecodeError::Malformed),
    }
}

/// Decodes the rows of a part in granules of `size` rows, from their number on, and gives back the rest.
#[tactic(auto, unfolding(crate::specs::PartDecoding::decode_rows))]
pub fn read_rows<'a>(
    alloc: Global,
    bytes: &'a [u8],
    columns: &[Column],
    size: u32,
) -> Result<(Rows, &'a [u8]), DecodeError>
    ensures rows { Decodes (λ x. (x.0.rows, x.1.now)) result (decode_rows columns.now size bytes.now) }
    ensures kinds { IfOk result (λ x. x.0.kinds ≡ kinds_in columns.now) }
{
    let (count, rest) = read_u32(bytes)?;
    let (granules, rest) = read_u32(rest)?;
    if granules > count {
        return Err(DecodeError::Malformed);
    }
    read_granules(alloc, rest, columns, size, (granules, count))
}

// Decodes the rows of so many granules, and so many rows in all, and gives back the rest.
fn read_granules<'a>(
    alloc: Global,
    bytes: &'a [u8],
    columns: &[Column],
    size: u32,
    counts: (u32, u32),
) -> Result<(Rows, &'a [u8]), DecodeError>
    ensures rows { Decodes (λ x. (x.0.rows, x.1.now)) result
        (decode_all columns.now size counts.0 counts.1 bytes.now) }
    ensures kinds { IfOk result (λ x. x.0.kinds ≡ kinds_in columns.now) }
{
    let (granules, count) = counts;
    let mut made = empty_columns(alloc, columns, most_rows(bytes, columns, count))?;
    let mut rest = bytes;
    let mut left = count;
    'granules: for _ in 0..granules {
        let here = left.min(size);
        rest = read_columns(rest, &mut made, here)?;
        left -= here;
    }
    if left > 0 {
        return Err(DecodeError::Malformed);
    }
    Ok((Rows::of_columns(made, count as usize), rest))
}

// The most rows that these bytes can have, of so many: each value takes a byte or more.
fn most_rows(bytes: &[u8], columns: &[Column], count: u32) -> usize
    ensures count { result ≤ count }
    ensures bytes { result ≤ length bytes.now }
{
    (count as usize).min(bytes.len() / columns.len().max(1))
}

// Columns of these types that have no values yet, with room for so many.
fn empty_columns(
    alloc: Global,
    columns: &[Column],
    room: usize,
) -> Result<Vec<ColumnValues>, AllocError>
    ensures { IfOk result (λ made. made.items ≡ no_values columns.now) }
{
    let mut made = Vec::with_capacity(alloc, columns.len())?;
    'columns: for column in columns {
        made.push(ColumnValues::with_capacity(alloc, column.kind, room, 0)?)?;
    }
    Ok(made)
}

// Decodes so many values of each column, puts them there, and gives back the rest.
fn read_columns<'a>(
    bytes: &'a [u8],
    columns: &mut [ColumnValues],
    count: u32,
) -> Result<&'a [u8], DecodeError>
    ensures { Decodes (λ rest. (columns.new, rest.now)) result
        (decode_columns columns.old count bytes.now) }
{
    let mut rest = bytes;
    'columns: for i in 0..columns.len() {
        rest = read_cells(rest, &mut columns[i], count)?;
    }
    Ok(rest)
}
