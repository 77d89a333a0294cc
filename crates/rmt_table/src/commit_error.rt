ghost use Rattle.std.specs.Prelude.{◌≡◌};
ghost use Rattle.rmt_table.specs.Causes.{commit_cause};
ghost use Rattle.rmt_table.specs.Refusals.{commit_of};
ghost use Rattle.rmt_table.specs.declared.commit_error.CommitError.TheVariants.{Memory};

use crate::quorum_error::QuorumError;
use rmt_events::StepRefused;
use rmt_names::PartName;
use rmt_values::Limit;
use std::alloc::AllocError;

/// Why a block isn't in the log. The lock stays at `Memory`, and is gone at each other answer.
#[derive(Clone, Copy, Debug, PartialEq, Eq)]
pub enum CommitError {
    /// The lock isn't there any more. The block needs another number.
    LockGone { number: u32 },
    /// Fewer replicas have a session than the quorum asks for.
    TooFewLive { live: u32, need: u32 },
    /// The insert asks for a quorum, and this part waits for its own.
    QuorumPending(PartName),
    /// The id of the block is kept, and its block got this part.
    Duplicate(PartName),
    /// The entry or its values would pass a limit, whose count is this.
    LimitReached { limit: Limit, value: u64 },
    /// Out of memory.
    Memory,
}

impl From<AllocError> for CommitError {
    ghost from_gives = { λ _ e. e ≡ Memory };

    fn from(_: AllocError) -> CommitError {
        CommitError::Memory
    }
}

impl CommitError {
    /// Why a block wasn't accepted, as an event is answered; `None` where no memory was left.
    pub fn cause(&self) -> Option<StepRefused>
        ensures { result ≡ commit_cause self.now }
    {
        match self {
            CommitError::LockGone { number } => Some(StepRefused::LockGone { number: *number }),
            CommitError::TooFewLive { live, need } => Some(StepRefused::TooFewLive {
                live: *live,
                need: *need,
            }),
            CommitError::QuorumPending(part) => Some(StepRefused::QuorumPending(*part)),
            CommitError::Duplicate(part) => Some(StepRefused::Duplicate(*part)),
            CommitError::LimitReached { limit, value } => Some(StepRefused::LimitReached {
                limit: *limit,
                value: *value,
            }),
            CommitError::Memory => None,
        }
    }

    /// The answer on a block, where this was that on its quorum.
    pub(crate) fn of_quorum(error: QuorumError) -> CommitError
        ensures { result ≡ commit_of error }
    {
        match error {
            QuorumError::TooFewLive { live, need } => CommitError::TooFewLive { live, need },
            QuorumError::QuorumPending(part) => CommitError::QuorumPending(part),
        }
    }
}
