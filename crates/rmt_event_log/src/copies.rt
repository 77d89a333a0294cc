//! Copies of events.
ghost use Rattle.std.specs.Prelude.{◌≡◌, IfOk};
ghost use Rattle.rmt_events.specs.declared.event.Event.TheVariants as ev;
ghost use Rattle.rmt_event_log.specs.EventLogs.{IsSameEvent, IsSamePair};

use crate::commands::copy_command;
use rmt_block::Block;
use rmt_events::{Event, Reply};
use rmt_list::List;
use rmt_names::PartName;
use rmt_values::{CheckedMutation, ReplicaId};
use std::alloc::{AllocError, Global};
use std::sync::Arc;

/// A copy of an event with its reply. A block is shared. At an error no memory was left.
pub(crate) fn copy_pair(alloc: Global, pair: &(Event, Reply)) -> Result<(Event, Reply), AllocError>
    ensures { IfOk result (IsSamePair pair.now) }
{
    let event = copy_event(alloc, &pair.0)?;
    Ok((event, pair.1))
}

/// A copy of an event. A block is shared. At an error no memory was left.
fn copy_event(alloc: Global, event: &Event) -> Result<Event, AllocError>
    ensures { IfOk result (IsSameEvent event.now) }
{
    match event {
        Event::Allocate {
            replica,
            block,
            need,
        } => allocate(*replica, block, *need),
        Event::Again { attempt } => Ok(Event::Again { attempt: *attempt }),
        Event::Stage { attempt } => Ok(Event::Stage { attempt: *attempt }),
        Event::Commit { attempt } => Ok(Event::Commit { attempt: *attempt }),
        Event::Abandon { attempt } => Ok(Event::Abandon { attempt: *attempt }),
        Event::Pull { replica } => Ok(Event::Pull { replica: *replica }),
        Event::Apply { replica, entry } => Ok(Event::Apply {
            replica: *replica,
            entry: *entry,
        }),
        Event::Merge { replica, sources } => merge(alloc, *replica, sources.as_slice()),
        Event::Mutate { replica, old, upto } => Ok(Event::Mutate {
            replica: *replica,
            old: *old,
            upto: *upto,
        }),
        Event::CreateMutation { command } => create_mutation(alloc, command),
        Event::DropPartition { partition } => Ok(Event::DropPartition {
            partition: *partition,
        }),
        Event::Kill { replica } => Ok(Event::Kill { replica: *replica }),
        Event::Restart { replica } => Ok(Event::Restart { replica: *replica }),
        Event::Note { replica } => Ok(Event::Note { replica: *replica }),
        Event::Fetches { replica, allowed } => Ok(Event::Fetches {
            replica: *replica,
            allowed: *allowed,
        }),
    }
}

/// An Allocate of a block, which is shared. At an error no memory was left.
pub(crate) fn allocate(
    replica: ReplicaId,
    block: &Arc<Block, Global>,
    need: u32,
) -> Result<Event, AllocError>
    ensures { IfOk result (IsSameEvent (ev.Allocate replica block.now need)) }
{
    let block = Arc::try_clone(block)?;
    Ok(Event::Allocate {
        replica,
        block,
        need,
    })
}

fn merge(alloc: Global, replica: ReplicaId, sources: &[PartName]) -> Result<Event, AllocError>
    ensures { IfOk result (λ event. event ≡ ev.Merge replica sources.now) }
{
    let sources = List::new(Vec::from_slice(alloc, sources)?);
    Ok(Event::Merge { replica, sources })
}

fn create_mutation(alloc: Global, command: &CheckedMutation) -> Result<Event, AllocError>
    ensures { IfOk result (λ event. event ≡ ev.CreateMutation command.now) }
{
    let command = copy_command(alloc, command)?;
    Ok(Event::CreateMutation { command })
}
