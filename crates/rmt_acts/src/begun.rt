use rmt_names::PartName;
use rmt_values::Limit;

/// How the insert of a block begins.
#[derive(Clone, Copy, Debug)]
pub(crate) enum Begun {
    /// It has a number.
    Attempt { attempt: u32, number: u32 },
    /// Fewer replicas are up than it needs.
    TooFewLive { live: u32, need: u32 },
    /// It asks for a quorum, and this part waits for its own.
    QuorumPending(PartName),
    /// The block's id is kept with this part.
    Duplicate(PartName),
    /// One more number would pass this limit.
    Full { limit: Limit, value: u64 },
}
