use rmt_names::{PartName, PartitionId};

/// How an entry of a replica's copy stands.
#[derive(Clone, Copy, Debug, PartialEq, Eq)]
pub(crate) enum EntryState {
    /// It is done, a Mutation, or covered by an active part.
    Already,
    /// A later drop takes its result away.
    Dropped,
    /// It is a drop that isn't done.
    Drops { partition: PartitionId, number: u32 },
    /// It makes this part, which isn't here.
    Waits(PartName),
}
