use rmt_block::Block;
use rmt_events::Applied;
use rmt_values::ReplicaId;
use std::alloc::Global;
use std::sync::Arc;

/// An event with its reply, in at most 32 bytes: a variant for each pair that comes often, with the fields that differ.
#[derive(Drop)]
pub(crate) enum Stored {
    /// An Allocate that gave a number.
    Numbered {
        replica: ReplicaId,
        need: u32,
        attempt: u32,
        number: u32,
        block: Arc<Block, Global>,
    },
    /// An Allocate of a block that is kept as a part of one block, of this number.
    Repeated {
        replica: ReplicaId,
        need: u32,
        number: u32,
        block: Arc<Block, Global>,
    },
    /// A Stage that was done.
    Staged {
        attempt: u32,
    },
    /// A Stage at a replica that is down.
    StagedDown {
        attempt: u32,
    },
    /// A Commit that was accepted, and the place of its entry.
    Committed {
        attempt: u32,
        entry: u32,
    },
    /// A Commit at a replica that is down.
    CommittedDown {
        attempt: u32,
    },
    /// An Abandon that was done.
    Abandoned {
        attempt: u32,
    },
    /// A Pull, and the length of the copy after it.
    Pulled {
        replica: ReplicaId,
        len: u32,
    },
    /// A Pull at a replica that is down.
    PulledDown {
        replica: ReplicaId,
    },
    /// An Apply, and what the entry came to.
    Applied {
        replica: ReplicaId,
        applied: Applied,
        entry: u32,
    },
    /// An Apply at a replica that is down.
    AppliedDown {
        replica: ReplicaId,
        entry: u32,
    },
    /// An Apply that needs a part, whose name the other fields have; the partition is 0 where there is none.
    Missing {
        replica: ReplicaId,
        is_partitioned: bool,
        entry: u32,
        partition: u64,
        min: u32,
        max: u32,
        level: u32,
        mutation: u32,
    },
    /// A Kill that was done.
    Killed {
        replica: ReplicaId,
    },
    /// A Restart that was done.
    Restarted {
        replica: ReplicaId,
    },
    /// A Note, and whether the replica is noted.
    Noted {
        replica: ReplicaId,
        is_noted: bool,
    },
    /// Another pair, which is at this place of the rare ones.
    Rare(usize),
}

const _: () = prove!(size_of::<Stored>() <= 32);
