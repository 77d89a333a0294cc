ghost use Rattle.std.specs.Prelude.{◌≡◌};
ghost use Rattle.rmt_table.specs.Causes.{merge_cause};
ghost use Rattle.rmt_table.specs.declared.merge_error.MergeError.TheVariants.{Memory};

use rmt_events::StepRefused;
use rmt_names::PartName;
use rmt_values::Limit;
use std::alloc::AllocError;

/// Why a merge isn't in the log.
#[derive(Clone, Copy, Debug, PartialEq, Eq)]
pub enum MergeError {
    /// The log has more entries than the copy that the merge was chosen from.
    LogMoved {
        seen: u32,
        found: u32,
    },
    /// The first neighbours that are of different versions.
    Differ {
        left: PartName,
        right: PartName,
    },
    /// The first neighbours of one version of which one covers the part that waits for its quorum, and that part.
    InQuorum {
        left: PartName,
        right: PartName,
        part: PartName,
    },
    /// The least number in the merged range that an insert holds.
    InFlight(u32),
    /// The entry would pass a limit, whose count is this.
    LimitReached {
        limit: Limit,
        value: u64,
    },
    /// Out of memory.
    Memory,
}

impl From<AllocError> for MergeError {
    ghost from_gives = { λ _ e. e ≡ Memory };

    fn from(_: AllocError) -> MergeError {
        MergeError::Memory
    }
}

impl MergeError {
    /// Why a merge isn't in the log, as an event is answered; `None` where no memory was left.
    pub fn cause(&self) -> Option<StepRefused>
        ensures { result ≡ merge_cause self.now }
    {
        match self {
            MergeError::LogMoved { seen, found } => Some(StepRefused::LogMoved {
                seen: *seen,
                found: *found,
            }),
            MergeError::Differ { left, right } => Some(StepRefused::Differ {
                left: *left,
                right: *right,
            }),
            MergeError::InQuorum { left, right, part } => Some(StepRefused::InQuorum {
                left: *left,
                right: *right,
                part: *part,
            }),
            MergeError::InFlight(number) => Some(StepRefused::InFlight(*number)),
            MergeError::LimitReached { limit, value } => Some(StepRefused::LimitReached {
                limit: *limit,
                value: *value,
            }),
            MergeError::Memory => None,
        }
    }
}
