//! How an event is read back with its reply.
ghost use Rattle.std.specs.Prelude.{◌≡◌, List, length, cond, IfOk};
ghost use Rattle.std.specs.declared.option.Option.TheVariants.{Some, None};
ghost use Rattle.rmt_events.specs.declared.event.Event.{Event as Made};
ghost use Rattle.rmt_events.specs.declared.event.Event.TheVariants as ev;
ghost use Rattle.rmt_events.specs.declared.reply.Reply.{Reply as Answered};
ghost use Rattle.rmt_events.specs.declared.reply.Reply.TheVariants as rp;
ghost use Rattle.rmt_events.specs.declared.step_refused.StepRefused.TheVariants as rf;
ghost use Rattle.rmt_event_log.specs.EventLogs.{IsSamePair};
ghost use Rattle.rmt_event_log.specs.Inside.{pair_of, IsPlainForm, IsSound};

use crate::copies::{allocate, copy_pair};
use crate::stored::Stored;
use rmt_block::Block;
use rmt_events::{Event, Reply, StepRefused};
use rmt_names::{PartName, PartitionId, block_name};
use rmt_values::ReplicaId;
use std::alloc::{AllocError, Global};
use std::sync::Arc;

/// The pair that is stored so, among these rare ones. At an error no memory was left.
pub(crate) fn pair(
    alloc: Global,
    stored: &Stored,
    rare: &[(Event, Reply)],
) -> Result<(Event, Reply), AllocError>
    requires sound { IsSound (length rare.now) stored.now }
    ensures { IfOk result (IsSamePair (pair_of rare.now stored.now)) }
{
    match stored {
        Stored::Numbered {
            replica,
            need,
            attempt,
            number,
            block,
        } => {
            let reply = Reply::Attempt {
                attempt: *attempt,
                number: *number,
            };
            with_block(*replica, block, *need, reply)
        }
        Stored::Repeated {
            replica,
            need,
            number,
            block,
        } => {
            let part = block_name(block.partition(), *number);
            let reply = Reply::Refused(StepRefused::Duplicate(part));
            with_block(*replica, block, *need, reply)
        }
        Stored::Rare(i) => copy_pair(alloc, &rare[*i]),
        _ => Ok(plain(stored)),
    }
}

/// An Allocate of a block, which is shared, with its reply. At an error no memory was left.
fn with_block(
    replica: ReplicaId,
    block: &Arc<Block, Global>,
    need: u32,
    reply: Reply,
) -> Result<(Event, Reply), AllocError>
    ensures { IfOk result (IsSamePair (ev.Allocate replica block.now need, reply)) }
{
    let event = allocate(replica, block, need)?;
    Ok((event, reply))
}

/// The pair that is stored so, whose event has no block.
fn plain(stored: &Stored) -> (Event, Reply)
    requires plain { IsPlainForm stored.now }
    requires sound { IsSound 0 stored.now }
    ensures { (rare : List (Made × Answered)) → IsSamePair (pair_of rare stored.now) result }
{
    match stored {
        Stored::Staged { attempt } => (stage(*attempt), Reply::Done),
        Stored::StagedDown { attempt } => (stage(*attempt), down()),
        Stored::Committed { attempt, entry } => (commit(*attempt), Reply::Entry(*entry)),
        Stored::CommittedDown { attempt } => (commit(*attempt), down()),
        Stored::Abandoned { attempt } => (Event::Abandon { attempt: *attempt }, Reply::Done),
        Stored::Pulled { replica, len } => (pull(*replica), Reply::Pulled(*len)),
        Stored::PulledDown { replica } => (pull(*replica), down()),
        Stored::Applied {
            replica,
            applied,
            entry,
        } => (apply(*replica, *entry), Reply::Applied(*applied)),
        Stored::AppliedDown { replica, entry } => (apply(*replica, *entry), down()),
        Stored::Missing {
            replica,
            is_partitioned,
            entry,
            partition,
            min,
            max,
            level,
            mutation,
        } => {
            let partition = unflagged(*is_partitioned, *partition);
            let part = PartName::new(partition, *min, *max, *level, *mutation);
            (
                apply(*replica, *entry),
                Reply::Refused(StepRefused::NeedsPart(part)),
            )
        }
        Stored::Killed { replica } => (Event::Kill { replica: *replica }, Reply::Done),
        Stored::Restarted { replica } => (Event::Restart { replica: *replica }, Reply::Done),
        Stored::Noted { replica, is_noted } => {
            (Event::Note { replica: *replica }, Reply::Noted(*is_noted))
        }
        Stored::Numbered { .. } | Stored::Repeated { .. } | Stored::Rare(_) => unreachable!(),
    }
}

fn stage(attempt: u32) -> Event
    ensures { result ≡ ev.Stage attempt }
{
    Event::Stage { attempt }
}

fn commit(attempt: u32) -> Event
    ensures { result ≡ ev.Commit attempt }
{
    Event::Commit { attempt }
}

fn pull(replica: ReplicaId) -> Event
    ensures { result ≡ ev.Pull replica }
{
    Event::Pull { replica }
}

fn apply(replica: ReplicaId, entry: u32) -> Event
    ensures { result ≡ ev.Apply replica entry }
{
    Event::Apply { replica, entry }
}

fn down() -> Reply
    ensures { result ≡ rp.Refused rf.Down }
{
    Reply::Refused(StepRefused::Down)
}

/// The partition that has this number, if it has one.
fn unflagged(is_partitioned: bool, number: u64) -> PartitionId
    ensures { result ≡ cond is_partitioned (Some number) None }
{
    if is_partitioned { Some(number) } else { None }
}
