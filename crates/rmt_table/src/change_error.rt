ghost use Rattle.std.specs.Prelude.{◌≡◌};
ghost use Rattle.rmt_table.specs.Causes.{change_cause};
ghost use Rattle.rmt_table.specs.declared.change_error.ChangeError.TheVariants.{Memory};

use rmt_events::StepRefused;
use rmt_values::Limit;
use std::alloc::AllocError;

/// Why a mutation or the drop of a partition isn't in the log.
#[derive(Clone, Copy, Debug, PartialEq, Eq)]
pub enum ChangeError {
    /// The entry or one of its numbers would pass a limit, whose count is this.
    LimitReached { limit: Limit, value: u64 },
    /// Out of memory.
    Memory,
}

impl From<AllocError> for ChangeError {
    ghost from_gives = { λ _ e. e ≡ Memory };

    fn from(_: AllocError) -> ChangeError {
        ChangeError::Memory
    }
}

impl ChangeError {
    /// Why a change isn't in the log, as an event is answered; `None` where no memory was left.
    pub fn cause(&self) -> Option<StepRefused>
        ensures { result ≡ change_cause self.now }
    {
        match self {
            ChangeError::LimitReached { limit, value } => Some(StepRefused::LimitReached {
                limit: *limit,
                value: *value,
            }),
            ChangeError::Memory => None,
        }
    }
}
