ghost use Rattle.std.specs.Prelude.{◌≡◌, ◌++◌, OnOk};
ghost use Rattle.rmt_bytes.specs.Decoding.{DecodesPrefix};
ghost use Rattle.rmt_entries.specs.EntryBytes.{name_bytes};
ghost use Rattle.rmt_entries.specs.EntryDecoding.{decode_name};

use crate::encoded::Encoded;
use rmt_bytes::{DecodeError, put_partition, put_u32, read_partition, read_u32};
use rmt_names::PartName;
use std::alloc::{AllocError, Global};

/// Appends a name.
pub fn put_name(out: &mut Vec<u8>, name: &PartName) -> Result<(), AllocError>
    ensures { OnOk result (out.new.items ≡ out.old.items ++ name_bytes name.now) }
{
    put_partition(out, name.partition())?;
    put_u32(out, name.min())?;
    put_u32(out, name.max())?;
    put_u32(out, name.level())?;
    put_u32(out, name.mutation())?;
    Ok(())
}

/// Decodes a name, and gives back the rest.
#[tactic(auto, unfolding(crate::specs::EntryDecoding::decode_name))]
pub fn read_name(bytes: &[u8]) -> Result<(PartName, &[u8]), DecodeError>
    ensures { DecodesPrefix result (decode_name bytes.now) }
{
    let (partition, rest) = read_partition(bytes)?;
    let (min, rest) = read_u32(rest)?;
    let (max, rest) = read_u32(rest)?;
    let (level, rest) = read_u32(rest)?;
    let (mutation, rest) = read_u32(rest)?;
    if min > max {
        return Err(DecodeError::Malformed);
    }
    Ok((PartName::new(partition, min, max, level, mutation), rest))
}

impl Encoded for PartName {
    ghost encoding = { name_bytes };

    ghost decoding = { decode_name };

    fn put(&self, out: &mut Vec<u8>) -> Result<(), AllocError> {
        put_name(out, self)
    }

    fn read(_alloc: Global, bytes: &[u8]) -> Result<(PartName, &[u8]), DecodeError> {
        read_name(bytes)
    }
}
