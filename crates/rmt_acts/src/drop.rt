//! ALTER .. DROP PARTITION.
ghost use Rattle.std.specs.Prelude.{◌≡◌, ◌∷◌, [], length, IfOk, OnErr};
ghost use Rattle.rmt_state.specs.States.{IsNumber};
ghost use Rattle.rmt_statement_model.specs.Shows.{IsIdle, KeepsUps};
ghost use Rattle.rmt_events.specs.declared.event.Event.TheVariants as ev;
ghost use Rattle.rmt_acts.specs.StatementEvents.{DropEvents, Makes, StopsAfter};
ghost use Rattle.rmt_acts.specs.Changing.{DropsTo, HasDrop, HasDropAt, IsNumberAt, DoesDrop};

use rmt_cluster::Cluster;
use rmt_entries::Entry;
use rmt_events::{Event, Reply, StepRefused};
use rmt_history::LogCopy;
use rmt_names::PartitionId;
use rmt_reply::Refusal;
use rmt_values::ReplicaId;
use std::alloc::{AllocError, Global};

/// The number of the drop at a place of a copy.
fn number_at(copy: &LogCopy, place: u32) -> u32
    requires { HasDropAt copy.now.log place }
    ensures { IsNumberAt copy.now.log place result }
{
    let Some(token) = copy.entry(place as usize) else {
        unreachable!()
    };
    match token.value() {
        Entry::DropRange { number, .. } => *number,
        _ => unreachable!(),
    }
}

/// Lets a replica pull the log, and do a drop, and gives its number.
fn do_drop(
    alloc: Global,
    cluster: &mut Cluster,
    replica: ReplicaId,
    entry: u32,
) -> Result<u32, AllocError>
    requires here { IsNumber replica (length cluster.old.replicas) }
    requires there { HasDrop cluster.old entry }
    requires idle { IsIdle cluster.old replica }
    ensures does { IfOk result (λ number. DoesDrop cluster.old replica entry number cluster.new) }
    ensures idle { IfOk result (λ _. IsIdle cluster.new replica) }
    ensures events { IfOk result (λ _.
        Makes cluster.old (ev.Pull replica ∷ ev.Apply replica entry ∷ []) cluster.new) }
    ensures err { OnErr result (StopsAfter cluster.old cluster.new) }
    ensures keeps { KeepsUps cluster.old result cluster.new }
{
    cluster.replicas_are_numbered();
    let _pulled = cluster.step(alloc, Event::Pull { replica })?;
    let number = number_at(cluster.copy(replica), entry);
    let reply = cluster.step(alloc, Event::Apply { replica, entry })?;
    match reply {
        Reply::Applied(_) => Ok(number),
        Reply::Refused(StepRefused::NeedsPart(_)) => unreachable!(),
        _ => unreachable!(),
    }
}

/// Drops the blocks of a partition, at a replica, which does the drop then; gives the number below which they are dropped, 0
/// where there is no such partition; or the refusal, where the drop would pass a limit. At an error no memory was left, and
/// what was done stays done.
pub fn drop_partition(
    alloc: Global,
    cluster: &mut Cluster,
    replica: ReplicaId,
    partition: PartitionId,
) -> Result<Result<u32, Refusal>, AllocError>
    requires here { IsNumber replica (length cluster.old.replicas) }
    requires idle { IsIdle cluster.old replica }
    ensures drops { IfOk result (λ below. DropsTo cluster.old replica partition below cluster.new) }
    ensures idle { IfOk result (λ _. IsIdle cluster.new replica) }
    ensures events { IfOk result (λ _.
        DropEvents cluster.old replica partition cluster.new) }
    ensures err { OnErr result (StopsAfter cluster.old cluster.new) }
    ensures keeps { KeepsUps cluster.old result cluster.new }
{
    let reply = cluster.step(alloc, Event::DropPartition { partition })?;
    match reply {
        Reply::Entry(entry) => {
            let below = do_drop(alloc, cluster, replica, entry)?;
            Ok(Ok(below))
        }
        Reply::Done => Ok(Ok(0)),
        Reply::Refused(why) => match why {
            StepRefused::LimitReached { limit, value } => {
                Ok(Err(Refusal::LimitReached { limit, value }))
            }
            _ => unreachable!(),
        },
        _ => unreachable!(),
    }
}
