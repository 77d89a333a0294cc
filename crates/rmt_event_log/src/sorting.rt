//! How an event is stored with its reply.
ghost use Rattle.std.specs.Prelude.{◌≡◌, cond};
ghost use Rattle.std.specs.declared.option.Option.TheVariants.{Some, None};
ghost use Rattle.rmt_events.specs.declared.event.Event.TheVariants as ev;
ghost use Rattle.rmt_events.specs.declared.reply.Reply.TheVariants as rp;
ghost use Rattle.rmt_events.specs.declared.step_refused.StepRefused.TheVariants as rf;
ghost use Rattle.rmt_event_log.specs.Inside.{IsPlain, IsSorted, IsSortedOrLeft, IsStoredAs};

use crate::stored::Stored;
use rmt_block::Block;
use rmt_events::{Event, Reply, StepRefused};
use rmt_names::{PartName, PartitionId, block_name};
use rmt_values::ReplicaId;
use std::alloc::Global;
use std::sync::Arc;

/// The stored form of an event with its reply. A pair that is rare comes back. It takes no memory.
pub(crate) fn sorted(event: Event, reply: Reply) -> Result<Stored, (Event, Reply)>
    ensures { IsSortedOrLeft event reply result }
{
    match event {
        Event::Allocate {
            replica,
            block,
            need,
        } => allocate(replica, block, need, &reply),
        other => match plain(&other, &reply) {
            Some(stored) => Ok(stored),
            None => Err((other, reply)),
        },
    }
}

fn allocate(
    replica: ReplicaId,
    block: Arc<Block, Global>,
    need: u32,
    reply: &Reply,
) -> Result<Stored, (Event, Reply)>
    ensures { IsSortedOrLeft (ev.Allocate replica block need) reply.now result }
{
    match reply {
        Reply::Attempt { attempt, number } => Ok(Stored::Numbered {
            replica,
            need,
            attempt: *attempt,
            number: *number,
            block,
        }),
        Reply::Refused(StepRefused::Duplicate(part)) => repeated(replica, block, need, *part),
        _ => Err((
            Event::Allocate {
                replica,
                block,
                need,
            },
            *reply,
        )),
    }
}

/// The same for an Allocate whose block is kept with a part.
fn repeated(
    replica: ReplicaId,
    block: Arc<Block, Global>,
    need: u32,
    part: PartName,
) -> Result<Stored, (Event, Reply)>
    ensures { IsSortedOrLeft (ev.Allocate replica block need) (rp.Refused (rf.Duplicate part)) result }
{
    let number = part.min();
    if part == block_name(block.partition(), number) {
        return Ok(Stored::Repeated {
            replica,
            need,
            number,
            block,
        });
    }
    Err((
        Event::Allocate {
            replica,
            block,
            need,
        },
        Reply::Refused(StepRefused::Duplicate(part)),
    ))
}

/// The same for an event without a block; none where the pair is rare.
fn plain(event: &Event, reply: &Reply) -> Option<Stored>
    requires { IsPlain event.now }
    ensures { IsSorted event.now reply.now result }
{
    match event {
        Event::Stage { attempt } => stage(*attempt, reply),
        Event::Commit { attempt } => commit(*attempt, reply),
        Event::Abandon { attempt } => abandon(*attempt, reply),
        Event::Pull { replica } => pull(*replica, reply),
        Event::Apply { replica, entry } => apply(*replica, *entry, reply),
        Event::Kill { replica } => kill(*replica, reply),
        Event::Restart { replica } => restart(*replica, reply),
        Event::Note { replica } => note(*replica, reply),
        _ => None,
    }
}

fn stage(attempt: u32, reply: &Reply) -> Option<Stored>
    ensures { IsSorted (ev.Stage attempt) reply.now result }
{
    match reply {
        Reply::Done => Some(Stored::Staged { attempt }),
        Reply::Refused(StepRefused::Down) => Some(Stored::StagedDown { attempt }),
        _ => None,
    }
}

fn commit(attempt: u32, reply: &Reply) -> Option<Stored>
    ensures { IsSorted (ev.Commit attempt) reply.now result }
{
    match reply {
        Reply::Entry(entry) => Some(Stored::Committed {
            attempt,
            entry: *entry,
        }),
        Reply::Refused(StepRefused::Down) => Some(Stored::CommittedDown { attempt }),
        _ => None,
    }
}

fn abandon(attempt: u32, reply: &Reply) -> Option<Stored>
    ensures { IsSorted (ev.Abandon attempt) reply.now result }
{
    match reply {
        Reply::Done => Some(Stored::Abandoned { attempt }),
        _ => None,
    }
}

fn pull(replica: ReplicaId, reply: &Reply) -> Option<Stored>
    ensures { IsSorted (ev.Pull replica) reply.now result }
{
    match reply {
        Reply::Pulled(len) => Some(Stored::Pulled { replica, len: *len }),
        Reply::Refused(StepRefused::Down) => Some(Stored::PulledDown { replica }),
        _ => None,
    }
}

fn apply(replica: ReplicaId, entry: u32, reply: &Reply) -> Option<Stored>
    ensures { IsSorted (ev.Apply replica entry) reply.now result }
{
    match reply {
        Reply::Applied(applied) => Some(Stored::Applied {
            replica,
            applied: *applied,
            entry,
        }),
        Reply::Refused(StepRefused::Down) => Some(Stored::AppliedDown { replica, entry }),
        Reply::Refused(StepRefused::NeedsPart(part)) => Some(missing(replica, entry, part)),
        _ => None,
    }
}

/// The stored form of an Apply that needs a part.
fn missing(replica: ReplicaId, entry: u32, part: &PartName) -> Stored
    ensures { IsStoredAs (ev.Apply replica entry) (rp.Refused (rf.NeedsPart part.now)) result }
{
    let (is_partitioned, partition) = flagged(part.partition());
    let max = part.max();
    Stored::Missing {
        replica,
        is_partitioned,
        entry,
        partition,
        min: part.min(),
        max,
        level: part.level(),
        mutation: part.mutation(),
    }
}

/// Whether a partition has a number, and the number, 0 for none.
fn flagged(partition: PartitionId) -> (bool, u64)
    ensures { cond result.0 (Some result.1) None ≡ partition }
{
    match partition {
        Some(number) => (true, number),
        None => (false, 0),
    }
}

fn kill(replica: ReplicaId, reply: &Reply) -> Option<Stored>
    ensures { IsSorted (ev.Kill replica) reply.now result }
{
    match reply {
        Reply::Done => Some(Stored::Killed { replica }),
        _ => None,
    }
}

fn restart(replica: ReplicaId, reply: &Reply) -> Option<Stored>
    ensures { IsSorted (ev.Restart replica) reply.now result }
{
    match reply {
        Reply::Done => Some(Stored::Restarted { replica }),
        _ => None,
    }
}

fn note(replica: ReplicaId, reply: &Reply) -> Option<Stored>
    ensures { IsSorted (ev.Note replica) reply.now result }
{
    match reply {
        Reply::Noted(is_noted) => Some(Stored::Noted {
            replica,
            is_noted: *is_noted,
        }),
        _ => None,
    }
}
