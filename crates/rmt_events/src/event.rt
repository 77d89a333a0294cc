use rmt_block::Block;
use rmt_list::List;
use rmt_names::{PartName, PartitionId};
use rmt_values::{CheckedMutation, ReplicaId};
use std::alloc::Global;
use std::sync::Arc;

/// One call on a table or on one of its replicas. Attempts are numbered from 0 in the order of their Allocate.
#[derive(Drop)]
pub enum Event {
    /// An attempt to insert a block begins: the block gets its number.
    Allocate {
        replica: ReplicaId,
        block: Arc<Block, Global>,
        need: u32,
    },
    /// An attempt whose lock is gone gets another number.
    Again {
        attempt: u32,
    },
    /// The attempt's block is staged at its replica.
    Stage {
        attempt: u32,
    },
    /// The block is accepted.
    Commit {
        attempt: u32,
    },
    /// The attempt ends without a Get.
    Abandon {
        attempt: u32,
    },
    /// A replica copies the rest of the log.
    Pull {
        replica: ReplicaId,
    },
    /// A replica does the entry at a place of its copy.
    Apply {
        replica: ReplicaId,
        entry: u32,
    },
    /// A merge of neighbours enters the log.
    Merge {
        replica: ReplicaId,
        sources: List<PartName>,
    },
    /// A mutate of a part, up to the mutation at a place, enters the log.
    Mutate {
        replica: ReplicaId,
        old: PartName,
        upto: u32,
    },
    /// A command takes a number in each partition.
    CreateMutation {
        command: CheckedMutation,
    },
    /// The blocks of a partition are dropped.
    DropPartition {
        partition: PartitionId,
    },
    /// A replica's session ends.
    Kill {
        replica: ReplicaId,
    },
    /// A replica's session begins anew.
    Restart {
        replica: ReplicaId,
    },
    /// A replica notes the part that waits for its quorum.
    Note {
        replica: ReplicaId,
    },
    /// A replica may fetch, or may not.
    Fetches {
        replica: ReplicaId,
        allowed: bool,
    },
}
