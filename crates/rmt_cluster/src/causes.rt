//! Why a call on the state did nothing, as an event is answered.
ghost use Rattle.std.specs.Prelude.{◌≡◌};
ghost use Rattle.rmt_cluster.specs.Causes.{IsApplyReply, apply_cause, is_final as ends_attempt};

use rmt_events::{Applied, Reply, StepRefused};
use rmt_replica::ApplyError;
use rmt_table::CommitError;
use std::alloc::AllocError;

/// Whether a block was refused for good, so that its lock has gone.
pub(crate) fn is_final(error: &CommitError) -> bool
    ensures { result ≡ ends_attempt error.now }
{
    match error {
        CommitError::LockGone { .. } | CommitError::Memory => false,
        CommitError::TooFewLive { .. }
        | CommitError::QuorumPending(_)
        | CommitError::Duplicate(_)
        | CommitError::LimitReached { .. } => true,
    }
}

/// Why an entry wasn't done; `None` where no memory was left.
fn no_apply(error: &ApplyError) -> Option<StepRefused>
    ensures { result ≡ apply_cause error.now }
{
    match error {
        ApplyError::Down => Some(StepRefused::Down),
        ApplyError::FetchesStopped => Some(StepRefused::FetchesStopped),
        ApplyError::NeedsPart(part) => Some(StepRefused::NeedsPart(*part)),
        ApplyError::Memory => None,
    }
}

/// The reply to an entry that a replica looked at. At an error no memory was left.
pub(crate) fn apply_reply(answer: Result<Applied, ApplyError>) -> Result<Reply, AllocError>
    ensures { IsApplyReply answer result }
{
    let error = match answer {
        Ok(done) => return Ok(Reply::Applied(done)),
        Err(error) => error,
    };
    match no_apply(&error) {
        Some(why) => Ok(Reply::Refused(why)),
        None => Err(AllocError),
    }
}
