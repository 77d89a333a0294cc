ghost use Rattle.std.specs.Prelude.{◌≡◌, ◌++◌, OnOk};
ghost use Rattle.rmt_bytes.specs.Decoding.{DecodesPrefix};
ghost use Rattle.rmt_entries.specs.EntryBytes.{right_bytes};
ghost use Rattle.rmt_entries.specs.EntryDecoding.{decode_right};

use crate::encoded::Encoded;
use rmt_bytes::{DecodeError, put_typed, put_u16, read_typed, read_u16};
use rmt_values::CheckedRight;
use std::alloc::{AllocError, Global};

/// Appends the right side of an assignment.
pub fn put_right(out: &mut Vec<u8>, right: &CheckedRight) -> Result<(), AllocError>
    ensures { OnOk result (out.new.items ≡ out.old.items ++ right_bytes right.now) }
{
    match right {
        CheckedRight::Literal(value) => {
            out.push(0)?;
            put_typed(out, value)?;
        }
        CheckedRight::Column(column) => {
            out.push(1)?;
            put_u16(out, *column)?;
        }
        CheckedRight::Plus { column, by } => {
            out.push(2)?;
            put_u16(out, *column)?;
            put_typed(out, by)?;
        }
        CheckedRight::Minus { column, by } => {
            out.push(3)?;
            put_u16(out, *column)?;
            put_typed(out, by)?;
        }
    }
    Ok(())
}

/// Decodes the right side of an assignment, and gives back the rest.
#[tactic(auto, unfolding(crate::specs::EntryDecoding::decode_right))]
pub fn read_right(alloc: Global, bytes: &[u8]) -> Result<(CheckedRight, &[u8]), DecodeError>
    ensures { DecodesPrefix result (decode_right bytes.now) }
{
    match bytes {
        [0, rest @ ..] => {
            let (value, rest) = read_typed(alloc, rest)?;
            Ok((CheckedRight::Literal(value), rest))
        }
        [1, rest @ ..] => {
            let (column, rest) = read_u16(rest)?;
            Ok((CheckedRight::Column(column), rest))
        }
        [2, rest @ ..] => {
            let (column, rest) = read_u16(rest)?;
            let (by, rest) = read_typed(alloc, rest)?;
            Ok((CheckedRight::Plus { column, by }, rest))
        }
        [3, rest @ ..] => {
            let (column, rest) = read_u16(rest)?;
            let (by, rest) = read_typed(alloc, rest)?;
            Ok((CheckedRight::Minus { column, by }, rest))
        }
        _ => Err(DecodeError::Malformed),
    }
}

impl Encoded for CheckedRight {
    ghost encoding = { right_bytes };

    ghost decoding = { decode_right };

    fn put(&self, out: &mut Vec<u8>) -> Result<(), AllocError> {
        put_right(out, self)
    }

    fn read(alloc: Global, bytes: &[u8]) -> Result<(CheckedRight, &[u8]), DecodeError> {
        read_right(alloc, bytes)
    }
}
