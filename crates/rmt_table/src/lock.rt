ghost use Rattle.std.specs.Prelude.{◌≡◌};

use rmt_block::BlockId;
use rmt_names::PartitionId;
use rmt_values::ReplicaId;

/// A block number that an insert has taken, and the ephemeral znode that holds it.
#[derive(Clone, Copy, Debug, PartialEq, Eq)]
pub struct Lock {
    /// The replica that inserts the block.
    pub replica: ReplicaId,
    /// The session of that replica with which the lock lives.
    pub session: u64,
    /// The block number.
    pub number: u32,
    /// The id of the block. Its partition is the number's.
    pub id: BlockId,
}

impl Lock {
    /// The partition of the block number.
    pub fn partition(&self) -> PartitionId
        ensures { result ≡ self.now.id.partition }
    {
        self.id.partition
    }
}
