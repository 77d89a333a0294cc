//! What the types of numbers and ids say, as functions that do nothing.
ghost use Rattle.std.specs.Prelude.{◌<◌, ◌^◌};
ghost use Rattle.std.specs.List.{All};
ghost use Rattle.rmt_block.specs.Blocks.{IsId};
ghost use Rattle.rmt_znodes.specs.Znodes.{IsPartition};

use rmt_block::BlockId;
use rmt_names::PartitionId;

/// A number has its width.
pub(crate) fn is_number(number: u32)
    ensures { number < 2 ^ 32 }
{
    let _number = number;
}

/// A partition's number has its width.
pub fn is_partition(partition: PartitionId)
    ensures { IsPartition partition }
{
    match partition {
        None => {}
        Some(_number) => {}
    }
}

/// A digest has 32 bytes.
fn is_digest(digest: &[u8])
    ensures { All (λ b. b < 2 ^ 8) digest.now }
{
    let _len = digest.len();
}

/// An id has its width.
pub fn is_id(id: &BlockId)
    ensures { IsId id.now }
{
    is_partition(id.partition);
    is_digest(&id.digest);
}
