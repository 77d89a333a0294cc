use rmt_names::PartitionId;

/// The number of a block in its partition.
#[derive(Clone, Copy, Debug, PartialEq, Eq, PartialOrd, Ord)]
pub struct BlockNumber {
    pub partition: PartitionId,
    pub number: u32,
}
