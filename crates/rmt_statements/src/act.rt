use crate::insert::Insert;
use crate::mode::Mode;
use crate::partition_word::PartitionWord;
use rmt_values::{Mutation, Name, Query};

/// What a statement does at a replica.
#[derive(Drop)]
pub enum Act {
    Insert(Insert),
    Select {
        table: Name,
        query: Query,
        mode: Mode,
    },
    Explain {
        table: Name,
        query: Query,
    },
    /// ALTER TABLE .. UPDATE or DELETE.
    Mutate {
        table: Name,
        command: Mutation,
    },
    DropPartition {
        table: Name,
        partition: PartitionWord,
    },
    Optimize {
        table: Name,
        partition: Option<PartitionWord>,
    },
    ShowParts {
        table: Name,
    },
    CheckTable {
        table: Name,
    },
    WaitMutation {
        table: Name,
        id: u128,
    },
    SyncReplica {
        table: Name,
    },
    RestartReplica {
        table: Name,
    },
    StopFetches {
        table: Name,
    },
    StartFetches {
        table: Name,
    },
}
