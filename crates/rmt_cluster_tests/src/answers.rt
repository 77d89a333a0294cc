//! Replies as plain data, which constants hold.
use crate::parts::Part;
use rmt_events::{Applied, Reply, StepRefused};
use rmt_values::Limit;
use std::test::Fail;

/// The reply to an event.
#[derive(Clone, Copy, PartialEq)]
pub(crate) enum Answer {
    /// The number of the attempt, and that of its block.
    Attempt(u32, u32),
    /// The place of the entry that was appended.
    Entry(u32),
    /// What the entry came to.
    Applied(Applied),
    /// The length of the copy once it was pulled.
    Pulled(u32),
    /// It was done.
    Done,
    /// It was refused.
    Refused(Refusal),
}

/// Why an event was refused. No event asks for a quorum or stops fetches, so none is refused for one.
#[derive(Clone, Copy, PartialEq)]
pub(crate) enum Refusal {
    /// The replica has no session.
    NoSession,
    /// The block is kept, with this part.
    Duplicate(Part),
    /// A limit would be passed, whose count is this.
    LimitReached { limit: Limit, value: u64 },
    /// The attempt's lock, of this number, is gone.
    LockGone(u32),
    /// The log is longer than the copy.
    LogMoved { seen: u32, found: u32 },
    /// The first neighbours of different versions.
    Differ { left: Part, right: Part },
    /// The lowest lock in the range.
    InFlight(u32),
    /// The replica is down.
    Down,
    /// This part is missing.
    NeedsPart(Part),
    /// No such attempt is open.
    NoAttempt,
    /// The block isn't staged.
    NotStaged,
    /// The attempt still has its lock.
    LockHeld,
    /// The names or the place don't meet the condition of the call.
    NotLive,
}

impl Answer {
    /// The reply as plain data.
    pub fn of(reply: Reply) -> Result<Answer, Fail> {
        match reply {
            Reply::Attempt { attempt, number } => Ok(Answer::Attempt(attempt, number)),
            Reply::Entry(place) => Ok(Answer::Entry(place)),
            Reply::Applied(came) => Ok(Answer::Applied(came)),
            Reply::Pulled(len) => Ok(Answer::Pulled(len)),
            Reply::Noted(_) => Err("a note, which no script makes".into()),
            Reply::Done => Ok(Answer::Done),
            Reply::Refused(why) => Ok(Answer::Refused(Refusal::of(why)?)),
        }
    }
}

impl Refusal {
    /// The refusal as plain data.
    fn of(why: StepRefused) -> Result<Refusal, Fail> {
        match why {
            StepRefused::NoSession => Ok(Refusal::NoSession),
            StepRefused::Duplicate(name) => Ok(Refusal::Duplicate(Part::of(&name))),
            StepRefused::LimitReached { limit, value } => {
                Ok(Refusal::LimitReached { limit, value })
            }
            StepRefused::LockGone { number } => Ok(Refusal::LockGone(number)),
            StepRefused::LogMoved { seen, found } => Ok(Refusal::LogMoved { seen, found }),
            StepRefused::Differ { left, right } => Ok(Refusal::Differ {
                left: Part::of(&left),
                right: Part::of(&right),
            }),
            StepRefused::InFlight(number) => Ok(Refusal::InFlight(number)),
            StepRefused::Down => Ok(Refusal::Down),
            StepRefused::NeedsPart(name) => Ok(Refusal::NeedsPart(Part::of(&name))),
            StepRefused::NoAttempt => Ok(Refusal::NoAttempt),
            StepRefused::NotStaged => Ok(Refusal::NotStaged),
            StepRefused::LockHeld => Ok(Refusal::LockHeld),
            StepRefused::NotLive => Ok(Refusal::NotLive),
            StepRefused::TooFewLive { .. }
            | StepRefused::QuorumPending(_)
            | StepRefused::InQuorum { .. } => Err("refused for a quorum".into()),
            StepRefused::FetchesStopped => Err("refused for fetches that are stopped".into()),
        }
    }
}
