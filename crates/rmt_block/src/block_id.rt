ghost use Rattle.std.specs.Prelude.{◌≡◌, IfOk};
ghost use Rattle.rmt_block.specs.Blocks.{id_of, id_text_of};

use crate::block::Block;
use rmt_names::{PartitionId, partition_text};
use rmt_values::Name;
use std::alloc::{AllocError, Global};

/// What a block is known by: a block that is inserted again has the id it had.
#[derive(Clone, Copy, Debug, PartialEq, Eq, Hash)]
pub struct BlockId {
    /// The partition of its rows.
    pub partition: PartitionId,
    /// The SHA-256 of its bytes.
    pub digest: [u8; 32],
}

/// The id of a block. It takes no memory, and the digest isn't computed again.
pub fn id(block: &Block) -> BlockId
    ensures { result ≡ id_of block.now }
{
    BlockId {
        partition: block.partition(),
        digest: block.digest(),
    }
}

/// The text of an id: that of its partition, `_`, and its digest as 64 hexadecimal digits in lower case. No two ids have
/// the same. At an error no memory was left.
pub fn id_text(alloc: Global, id: &BlockId) -> Result<Name, AllocError>
    ensures { IfOk result (λ text. text ≡ id_text_of id.now) }
{
    let mut text = partition_text(alloc, id.partition)?;
    let digits = hex::encode(alloc, id.digest)?;
    text.push('_')?;
    text.push_str(digits.as_str())?;
    Name::from_slice(alloc, text.as_bytes())
}
