ghost use Rattle.std.specs.Prelude.{◌≡◌, ◌++◌, OnOk};
ghost use Rattle.rmt_bytes.specs.Decoding.{DecodesPrefix};
ghost use Rattle.rmt_entries.specs.EntryBytes.{block_number_bytes};
ghost use Rattle.rmt_entries.specs.EntryDecoding.{decode_block_number};

use rmt_bytes::{DecodeError, put_partition, put_u32, read_partition, read_u32};
use rmt_names::PartitionId;
use std::alloc::AllocError;

/// Appends a block number: its partition, and the number.
pub fn put_block_number(
    out: &mut Vec<u8>,
    partition: PartitionId,
    number: u32,
) -> Result<(), AllocError>
    ensures { OnOk result (out.new.items ≡ out.old.items ++ block_number_bytes partition number) }
{
    put_partition(out, partition)?;
    put_u32(out, number)?;
    Ok(())
}

/// Decodes a block number, and gives back the rest.
pub fn read_block_number(bytes: &[u8]) -> Result<((PartitionId, u32), &[u8]), DecodeError>
    ensures { DecodesPrefix result (decode_block_number bytes.now) }
{
    let (partition, rest) = read_partition(bytes)?;
    let (number, rest) = read_u32(rest)?;
    Ok(((partition, number), rest))
}
