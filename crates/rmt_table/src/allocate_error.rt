ghost use Rattle.std.specs.Prelude.{◌≡◌};
ghost use Rattle.rmt_table.specs.Causes.{allocate_cause};
ghost use Rattle.rmt_table.specs.Refusals.{IsSameLimit, allocate_of};
ghost use Rattle.rmt_table.specs.declared.allocate_error.AllocateError.TheVariants.{Memory};

use crate::quorum_error::QuorumError;
use rmt_events::StepRefused;
use rmt_inserts::NumberError;
use rmt_names::PartName;
use rmt_values::Limit;
use std::alloc::AllocError;

/// Why a block got no number.
#[derive(Clone, Copy, Debug, PartialEq, Eq)]
pub enum AllocateError {
    /// The replica has no session.
    NoSession,
    /// Fewer replicas have a session than the quorum asks for.
    TooFewLive { live: u32, need: u32 },
    /// The insert asks for a quorum, and this part waits for its own.
    QuorumPending(PartName),
    /// The id of the block is kept, and its block got this part.
    Duplicate(PartName),
    /// The number or the entry would pass a limit, whose count is this.
    LimitReached { limit: Limit, value: u64 },
    /// Out of memory.
    Memory,
}

impl From<AllocError> for AllocateError {
    ghost from_gives = { λ _ e. e ≡ Memory };

    fn from(_: AllocError) -> AllocateError {
        AllocateError::Memory
    }
}

impl AllocateError {
    /// Why a block got no number, as an event is answered; `None` where no memory was left.
    pub fn cause(&self) -> Option<StepRefused>
        ensures { result ≡ allocate_cause self.now }
    {
        match self {
            AllocateError::NoSession => Some(StepRefused::NoSession),
            AllocateError::TooFewLive { live, need } => Some(StepRefused::TooFewLive {
                live: *live,
                need: *need,
            }),
            AllocateError::QuorumPending(part) => Some(StepRefused::QuorumPending(*part)),
            AllocateError::Duplicate(part) => Some(StepRefused::Duplicate(*part)),
            AllocateError::LimitReached { limit, value } => Some(StepRefused::LimitReached {
                limit: *limit,
                value: *value,
            }),
            AllocateError::Memory => None,
        }
    }

    /// The answer on a block, where this was that on its quorum.
    pub(crate) fn of_quorum(error: QuorumError) -> AllocateError
        ensures { result ≡ allocate_of error }
    {
        match error {
            QuorumError::TooFewLive { live, need } => AllocateError::TooFewLive { live, need },
            QuorumError::QuorumPending(part) => AllocateError::QuorumPending(part),
        }
    }

    /// The answer on a block, where this was that on its number.
    pub(crate) fn of_number(error: NumberError) -> AllocateError
        ensures { IsSameLimit error result }
    {
        match error {
            NumberError::LimitReached { limit, value } => {
                AllocateError::LimitReached { limit, value }
            }
            NumberError::Memory => AllocateError::Memory,
        }
    }
}
