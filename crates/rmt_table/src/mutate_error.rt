ghost use Rattle.std.specs.Prelude.{◌≡◌};
ghost use Rattle.rmt_table.specs.Causes.{mutate_cause};
ghost use Rattle.rmt_table.specs.declared.mutate_error.MutateError.TheVariants.{Memory};

use rmt_events::StepRefused;
use rmt_values::Limit;
use std::alloc::AllocError;

/// Why the mutation of a part isn't in the log.
#[derive(Clone, Copy, Debug, PartialEq, Eq)]
pub enum MutateError {
    /// The log has more entries than the copy that the part was chosen from.
    LogMoved { seen: u32, found: u32 },
    /// The entry would pass a limit, whose count is this.
    LimitReached { limit: Limit, value: u64 },
    /// Out of memory.
    Memory,
}

impl From<AllocError> for MutateError {
    ghost from_gives = { λ _ e. e ≡ Memory };

    fn from(_: AllocError) -> MutateError {
        MutateError::Memory
    }
}

impl MutateError {
    /// Why the mutation of a part isn't in the log, as an event is answered; `None` where no memory was left.
    pub fn cause(&self) -> Option<StepRefused>
        ensures { result ≡ mutate_cause self.now }
    {
        match self {
            MutateError::LogMoved { seen, found } => Some(StepRefused::LogMoved {
                seen: *seen,
                found: *found,
            }),
            MutateError::LimitReached { limit, value } => Some(StepRefused::LimitReached {
                limit: *limit,
                value: *value,
            }),
            MutateError::Memory => None,
        }
    }
}
