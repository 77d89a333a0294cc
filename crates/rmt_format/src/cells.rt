//! The values of a column from bytes.
ghost use Rattle.std.specs.Prelude.{◌≡◌, IfOk};
ghost use Rattle.rmt_bytes.specs.Decoding.{Decodes, decode_text, decode_value};
ghost use Rattle.rmt_columns.specs.Columns.{value_of};
ghost use Rattle.rmt_format.specs.PartDecoding.{decode_cells};
ghost use Rattle.rmt_values.specs.Rows.{kind_of};

use rmt_bytes::{DecodeError, read_i64, read_u16, read_u64};
use rmt_columns::{ColumnValues, ValueRef};
use rmt_values::Kind;

/// Decodes so many values of a column, puts them at its end, and gives back the rest.
pub fn read_cells<'a>(
    bytes: &'a [u8],
    column: &mut ColumnValues,
    count: u32,
) -> Result<&'a [u8], DecodeError>
    ensures { Decodes (λ rest. (column.new, rest.now)) result (decode_cells column.old count bytes.now) }
{
    let kind = column.kind();
    let mut rest = bytes;
    'cells: for _ in 0..count {
        let (value, after) = read_value_ref(kind, rest)?;
        column.push(value)?;
        rest = after;
    }
    Ok(rest)
}

// Decodes a value of this type where it lies in the bytes, and gives back the rest.
#[tactic(auto, unfolding(rmt_bytes::specs::Decoding::decode_value))]
fn read_value_ref(kind: Kind, bytes: &[u8]) -> Result<(ValueRef<'_>, &[u8]), DecodeError>
    ensures value { Decodes (λ x. (value_of x.0, x.1.now)) result (decode_value kind bytes.now) }
    ensures kind { IfOk result (λ x. kind_of (value_of x.0) ≡ kind) }
{
    match kind {
        Kind::UInt64 => {
            let (number, rest) = read_u64(bytes)?;
            Ok((ValueRef::UInt(number), rest))
        }
        Kind::Int64 => {
            let (number, rest) = read_i64(bytes)?;
            Ok((ValueRef::Int(number), rest))
        }
        Kind::Text => {
            let (text, rest) = read_text_ref(bytes)?;
            Ok((ValueRef::Text(text), rest))
        }
    }
}

// Decodes a String where it lies in the bytes, from its length on, and gives back the rest.
#[tactic(auto, unfolding(rmt_bytes::specs::Decoding::decode_text))]
fn read_text_ref(bytes: &[u8]) -> Result<(&[u8], &[u8]), DecodeError>
    ensures { Decodes (λ x. (x.0.now, x.1.now)) result (decode_text bytes.now) }
{
    let (len, rest) = read_u16(bytes)?;
    let len = len as usize;
    if rest.len() < len {
        return Err(DecodeError::Malformed);
    }
    Ok(rest.split_at(len))
}
