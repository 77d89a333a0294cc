use rmt_list::List;
use rmt_names::PartitionId;
use rmt_values::{CheckedMutation, Row};

/// What a table accepted. Blocks, mutations and drops take their numbers in a partition from one sequence.
#[derive(Debug, Drop)]
pub enum Accepted {
    /// A block of a partition.
    Block {
        partition: PartitionId,
        number: u32,
        rows: List<Row>,
    },
    /// A command, with the number that it took in each partition.
    Mutation {
        numbers: List<(PartitionId, u32)>,
        command: CheckedMutation,
    },
    /// A drop of the blocks of a partition.
    DropRange {
        partition: PartitionId,
        number: u32,
    },
}
