use rmt_names::PartName;

/// Why a block that needs so many replicas isn't taken.
#[derive(Clone, Copy)]
pub(crate) enum QuorumError {
    /// Fewer replicas have a session than the block needs.
    TooFewLive { live: u32, need: u32 },
    /// The block asks for a quorum, and this part waits for its own.
    QuorumPending(PartName),
}
