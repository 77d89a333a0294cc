ghost use Rattle.std.specs.Prelude.{◌≡◌, ◌++◌, OnOk};
ghost use Rattle.rmt_bytes.specs.Decoding.{DecodesPrefix};
ghost use Rattle.rmt_entries.specs.EntryBytes.{cmp_byte as byte_of, filter_bytes};
ghost use Rattle.rmt_entries.specs.EntryDecoding.{decode_cmp, decode_filter};

use rmt_bytes::{DecodeError, put_typed, put_u16, read_typed, read_u16};
use rmt_list::Boxed;
use rmt_values::{Checked, Cmp};
use std::alloc::{AllocError, Global};

/// How deep a filter nests at most where it is decoded.
pub const DEEPEST: u16 = 512;

// The byte that encodes an operator.
fn cmp_byte(cmp: Cmp) -> u8
    ensures { result ≡ byte_of cmp }
{
    match cmp {
        Cmp::Eq => 1,
        Cmp::Ne => 2,
        Cmp::Lt => 3,
        Cmp::Le => 4,
        Cmp::Gt => 5,
        Cmp::Ge => 6,
    }
}

/// Appends a filter.
pub fn put_filter(out: &mut Vec<u8>, filter: &Checked) -> Result<(), AllocError>
    ensures { OnOk result (out.new.items ≡ out.old.items ++ filter_bytes filter.now) }
{
    match filter {
        Checked::Test { column, cmp, value } => {
            out.push(1)?;
            put_u16(out, *column)?;
            out.push(cmp_byte(*cmp))?;
            put_typed(out, value)?;
        }
        Checked::Both(first, second) => {
            out.push(2)?;
            put_filter(out, first.get())?;
            put_filter(out, second.get())?;
        }
        Checked::Either(first, second) => {
            out.push(3)?;
            put_filter(out, first.get())?;
            put_filter(out, second.get())?;
        }
        Checked::Not(filter) => {
            out.push(4)?;
            put_filter(out, filter.get())?;
        }
    }
    Ok(())
}

// Decodes an operator, and gives back the rest.
#[tactic(auto, unfolding(crate::specs::EntryDecoding::decode_cmp))]
fn read_cmp(bytes: &[u8]) -> Result<(Cmp, &[u8]), DecodeError>
    ensures { DecodesPrefix result (decode_cmp bytes.now) }
{
    match bytes {
        [1, rest @ ..] => Ok((Cmp::Eq, rest)),
        [2, rest @ ..] => Ok((Cmp::Ne, rest)),
        [3, rest @ ..] => Ok((Cmp::Lt, rest)),
        [4, rest @ ..] => Ok((Cmp::Le, rest)),
        [5, rest @ ..] => Ok((Cmp::Gt, rest)),
        [6, rest @ ..] => Ok((Cmp::Ge, rest)),
        _ => Err(DecodeError::Malformed),
    }
}

/// Decodes a filter that nests no deeper than this, and gives back the rest.
#[tactic(auto, unfolding(crate::specs::EntryDecoding::decode_filter, crate::specs::EntryDecoding::decode_level))]
pub fn read_filter(alloc: Global, depth: u16, bytes: &[u8]) -> Result<(Checked, &[u8]), DecodeError>
    ensures { DecodesPrefix result (decode_filter depth bytes.now) }
{
    if depth == 0 {
        return Err(DecodeError::Malformed);
    }
    let depth = depth - 1;
    match bytes {
        [1, rest @ ..] => {
            let (column, rest) = read_u16(rest)?;
            let (cmp, rest) = read_cmp(rest)?;
            let (value, rest) = read_typed(alloc, rest)?;
            Ok((Checked::Test { column, cmp, value }, rest))
        }
        [2, rest @ ..] => {
            let (first, rest) = read_filter(alloc, depth, rest)?;
            let (second, rest) = read_filter(alloc, depth, rest)?;
            let (first, second) = (Boxed::new(alloc, first)?, Boxed::new(alloc, second)?);
            Ok((Checked::Both(first, second), rest))
        }
        [3, rest @ ..] => {
            let (first, rest) = read_filter(alloc, depth, rest)?;
            let (second, rest) = read_filter(alloc, depth, rest)?;
            let (first, second) = (Boxed::new(alloc, first)?, Boxed::new(alloc, second)?);
            Ok((Checked::Either(first, second), rest))
        }
        [4, rest @ ..] => {
            let (filter, rest) = read_filter(alloc, depth, rest)?;
            Ok((Checked::Not(Boxed::new(alloc, filter)?), rest))
        }
        _ => Err(DecodeError::Malformed),
    }
}
