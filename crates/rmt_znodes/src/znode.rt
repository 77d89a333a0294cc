ghost use Rattle.std.specs.Prelude.{◌≡◌, IfOk};
ghost use Rattle.rmt_znodes.specs.Znodes.{znode_path, IsZnode};

use crate::branch::{block_path, mutation_path, partition_path, replica_path, top_path};
use crate::leaves::{
    is_active_path, last_part_path, log_entry_path, log_pointer_path, numbered_lock_path,
    order_of_path, status_path,
};
use crate::ranges::{is_id, is_number, is_partition};
use rmt_block::BlockId;
use rmt_names::PartitionId;
use rmt_tree::Path;
use rmt_values::ReplicaId;
use std::alloc::{AllocError, Global};

/// A znode of a table's tree, by what it stands for.
#[derive(Clone, Copy)]
pub enum Znode {
    /// The log: its entries are below it.
    Log,
    /// The entry at this place of the log.
    LogEntry(u32),
    /// The blocks whose ids are kept.
    Blocks,
    /// A block whose id is kept, by that id.
    Block {
        partition: PartitionId,
        digest: [u8; 32],
    },
    /// The kept ids in the order in which their blocks were accepted.
    Order,
    /// The kept id of this number in that order.
    OrderOf(u32),
    /// The partitions that exist.
    Numbers,
    /// A partition: it counts the block numbers that it has given.
    Partition(PartitionId),
    /// The lock on a block number.
    Lock {
        partition: PartitionId,
        number: u32,
    },
    /// The mutations.
    Mutations,
    /// The mutation of this id.
    MutationNode(u32),
    /// The quorum inserts.
    Quorum,
    /// The part that waits for its quorum.
    Status,
    /// The last part whose quorum was met.
    LastPart,
    /// The replicas.
    Replicas,
    /// A replica.
    Replica(ReplicaId),
    /// How many entries of the log a replica has pulled.
    LogPointer(ReplicaId),
    /// A replica's session is open.
    IsActive(ReplicaId),
}

impl Znode {
    /// The path of the znode. At an error no memory was left.
    pub fn path(&self, alloc: Global) -> Result<Path, AllocError>
        ensures path { IfOk result (λ path. path ≡ znode_path self.now) }
        ensures in_range { IsZnode self.now }
    {
        self.in_range();
        match *self {
            Znode::Log => top_path(alloc, "/log"),
            Znode::LogEntry(place) => log_entry_path(alloc, place),
            Znode::Blocks => top_path(alloc, "/blocks"),
            Znode::Block { partition, digest } => block_path(alloc, partition, digest),
            Znode::Order => top_path(alloc, "/blocks_order"),
            Znode::OrderOf(number) => order_of_path(alloc, number),
            Znode::Numbers => top_path(alloc, "/block_numbers"),
            Znode::Partition(partition) => partition_path(alloc, partition),
            Znode::Lock { partition, number } => numbered_lock_path(alloc, partition, number),
            Znode::Mutations => top_path(alloc, "/mutations"),
            Znode::MutationNode(id) => mutation_path(alloc, id),
            Znode::Quorum => top_path(alloc, "/quorum"),
            Znode::Status => status_path(alloc),
            Znode::LastPart => last_part_path(alloc),
            Znode::Replicas => top_path(alloc, "/replicas"),
            Znode::Replica(replica) => replica_path(alloc, replica),
            Znode::LogPointer(replica) => log_pointer_path(alloc, replica),
            Znode::IsActive(replica) => is_active_path(alloc, replica),
        }
    }

    /// Each number has its width.
    fn in_range(&self)
        ensures { IsZnode self.now }
    {
        match *self {
            Znode::LogEntry(number) => is_number(number),
            Znode::Block { partition, digest } => is_id(&BlockId { partition, digest }),
            Znode::OrderOf(number) => is_number(number),
            Znode::Partition(partition) => is_partition(partition),
            Znode::Lock { partition, number } => {
                is_partition(partition);
                is_number(number);
            }
            Znode::MutationNode(id) => is_number(id),
            Znode::Replica(replica) => is_number(u32::from(replica)),
            Znode::LogPointer(replica) => is_number(u32::from(replica)),
            Znode::IsActive(replica) => is_number(u32::from(replica)),
            Znode::Log => {}
            Znode::Blocks => {}
            Znode::Order => {}
            Znode::Numbers => {}
            Znode::Mutations => {}
            Znode::Quorum => {}
            Znode::Status => {}
            Znode::LastPart => {}
            Znode::Replicas => {}
        }
    }
}
