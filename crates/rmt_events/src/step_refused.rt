use rmt_names::PartName;
use rmt_values::Limit;

/// Why an event was refused.
#[derive(Clone, Copy, PartialEq, Eq)]
pub enum StepRefused {
    /// The replica has no session.
    NoSession,
    /// Fewer replicas are live than the block needs.
    TooFewLive {
        live: u32,
        need: u32,
    },
    /// This part waits for its quorum.
    QuorumPending(PartName),
    /// The block's id is kept, with this part.
    Duplicate(PartName),
    /// The count would pass the limit.
    LimitReached {
        limit: Limit,
        value: u64,
    },
    /// The attempt's lock, of this number, is gone.
    LockGone {
        number: u32,
    },
    /// The log is longer than the copy.
    LogMoved {
        seen: u32,
        found: u32,
    },
    /// The first two neighbours of different versions.
    Differ {
        left: PartName,
        right: PartName,
    },
    /// The first two neighbours of one version of which one covers the part that waits for its quorum, and that part.
    InQuorum {
        left: PartName,
        right: PartName,
        part: PartName,
    },
    /// The lowest lock in the range.
    InFlight(u32),
    /// The replica is down.
    Down,
    /// Another live replica holds the block, and fetches are stopped here.
    FetchesStopped,
    /// This part is missing: the Get's own, which no live replica holds, or the first source that isn't active.
    NeedsPart(PartName),
    /// No such attempt is open.
    NoAttempt,
    /// The block isn't staged.
    NotStaged,
    /// The attempt still has its lock.
    LockHeld,
    /// The names or the place don't meet the condition of the call.
    NotLive,
}
