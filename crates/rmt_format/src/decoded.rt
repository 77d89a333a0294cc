//! A whole part from bytes.
ghost use Rattle.std.specs.Prelude.{◌≡◌, ◌↔◌, IsTrue, IfOk};
ghost use Rattle.std.specs.List.Sorted.{IsSorted};
ghost use Rattle.rmt_values.specs.Rows.{key_cmp};
ghost use Rattle.rmt_columns.specs.RowsByColumn.{kinds_in};
ghost use Rattle.rmt_granules.specs.Granules.{PartView};
ghost use Rattle.rmt_format.specs.PartBytes.{AreInRange, HasPartBytes, part_bytes};
ghost use Rattle.rmt_format.specs.PartDecoding.{IsDecodedAs, IsReadAs};

use crate::decode_error::DecodeError;
use crate::part_bytes::encode;
use crate::rows::{after_head, read_rows};
use rmt_bytes::DecodeError as ReadError;
use rmt_columns::Rows;
use rmt_granules::{PartData, all_fit, from_rows};
use rmt_values::Schema;
use std::alloc::Global;

/// Decodes the part of the schema that has these bytes. No memory is taken for more rows than there are
/// bytes.
pub fn decode(alloc: Global, bytes: &[u8], schema: &Schema) -> Result<PartData, DecodeError>
    ensures read { IfOk result (λ part. bytes.now ≡ part_bytes schema.now part) }
    ensures of_schema { IfOk result (λ part. HasPartBytes schema.now part) }
    ensures in_range { IfOk result (λ part. AreInRange part.rows) }
    ensures only { (part : PartView) → HasPartBytes schema.now part → AreInRange part.rows
        → bytes.now ≡ part_bytes schema.now part → IsDecodedAs part result }
{
    let rows = match rows_in(alloc, bytes, schema) {
        Ok(rows) => rows,
        Err(ReadError::Malformed) => return Err(DecodeError::NotAPart),
        Err(ReadError::Memory) => return Err(DecodeError::Memory),
    };
    part_of(alloc, bytes, rows, schema)
}

// The rows of the part that has these bytes. Of bytes that no part has they may be any.
fn rows_in(alloc: Global, bytes: &[u8], schema: &Schema) -> Result<Rows, ReadError>
    ensures rows { (part : PartView) → HasPartBytes schema.now part → AreInRange part.rows
        → bytes.now ≡ part_bytes schema.now part → IsReadAs (λ rows. rows.rows) part.rows result }
    ensures kinds { IfOk result (λ rows. rows.kinds ≡ kinds_in schema.now.columns) }
{
    let data = after_head(alloc, bytes, schema)?;
    let columns = schema.columns();
    let (rows, _rest) = read_rows(alloc, data, columns, schema.granularity())?;
    Ok(rows)
}

// Makes the part of these rows, where it has these bytes.
fn part_of(
    alloc: Global,
    bytes: &[u8],
    rows: Rows,
    schema: &Schema,
) -> Result<PartData, DecodeError>
    requires { rows.kinds ≡ kinds_in schema.now.columns }
    ensures read { IfOk result (λ part. bytes.now ≡ part_bytes schema.now part) }
    ensures of_schema { IfOk result (λ part. HasPartBytes schema.now part) }
    ensures in_range { IfOk result (λ part. AreInRange part.rows) }
    ensures only { (part : PartView) → HasPartBytes schema.now part
        → bytes.now ≡ part_bytes schema.now part → rows.rows ≡ part.rows
        → IsDecodedAs part result }
{
    if !all_fit(&rows, schema) {
        return Err(DecodeError::NotAPart);
    }
    if !are_sorted(&rows, schema.key()) {
        return Err(DecodeError::NotAPart);
    }
    let part = from_rows(alloc, rows, schema)?;
    if part.rows() > u32::MAX as usize {
        return Err(DecodeError::NotAPart);
    }
    let encoded = encode(alloc, &part, schema)?;
    if !are_same(&encoded, bytes) {
        return Err(DecodeError::NotAPart);
    }
    Ok(part)
}

// Whether no row comes before the one that it follows, by the columns of a key.
fn are_sorted(rows: &Rows, key: &[u16]) -> bool
    ensures { IsTrue result ↔ IsSorted (key_cmp key.now) rows.now.rows }
{
    'rows: for i in 1..rows.len() {
        if rows.order(key, i, rows, i - 1).is_lt() {
            return false;
        }
    }
    true
}

// Whether the bytes are the same.
fn are_same(a: &[u8], b: &[u8]) -> bool
    ensures { IsTrue result ↔ (a.now ≡ b.now) }
{
    a == b
}
