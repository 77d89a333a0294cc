//! The events of an insert: its block gets a number, is staged at its replica, and is accepted, or the attempt ends.
ghost use Rattle.std.specs.Prelude.{◌≡◌, ◌≢◌, ◌+◌, ◌<◌, ◌^◌, IfOk, OnErr};
ghost use Rattle.rmt_events.specs.declared.event.Event.TheVariants as ev;
ghost use Rattle.rmt_table.specs.TableTrees.{IsReplica};
ghost use Rattle.rmt_cluster.specs.Acting.{ActsWith, AreSame, SuitAttempts, EndsAt};

use crate::attempts::Attempts;
use crate::causes::is_final;
use rmt_block::{Block, id};
use rmt_events::{Reply, StepRefused};
use rmt_replica::ReplicaError;
use rmt_state::State;
use rmt_table::Lock;
use rmt_values::ReplicaId;
use std::alloc::{AllocError, Global};
use std::sync::Arc;

/// An attempt begins: its block, which asks for so many replicas, gets a number. At an error no memory was left, and nothing
/// changed.
pub(crate) fn allocate(
    alloc: Global,
    state: &mut State,
    attempts: &mut Attempts,
    replica: ReplicaId,
    block: &Arc<Block, Global>,
    need: u32,
) -> Result<Reply, AllocError>
    requires here { IsReplica state.old.tree replica }
    requires need { need ≢ 1 }
    requires few { attempts.old.made + 1 < 2 ^ 32 }
    ensures ok { IfOk result (λ reply. ActsWith state.old attempts.old (ev.Allocate replica block.now need) reply state.new attempts.new) }
    ensures err { OnErr result (state.new ≡ state.old) }
    ensures same { OnErr result (AreSame attempts.old attempts.new) }
{
    attempts.reserve()?;
    let kept = Arc::try_clone(block)?;
    match state.allocate(alloc, replica, &id(block), need) {
        Ok(lock) => {
            let attempt = attempts.begin(kept, lock, need);
            Ok(Reply::Attempt {
                attempt,
                number: lock.number,
            })
        }
        Err(error) => match error.cause() {
            Some(why) => Ok(Reply::Refused(why)),
            None => Err(AllocError),
        },
    }
}

/// An attempt whose lock is gone gets another number. At an error no memory was left, and nothing changed.
pub(crate) fn again(
    alloc: Global,
    state: &mut State,
    attempts: &mut Attempts,
    attempt: u32,
) -> Result<Reply, AllocError>
    requires suit { SuitAttempts state.old attempts.old }
    ensures ok { IfOk result (λ reply. ActsWith state.old attempts.old (ev.Again attempt) reply state.new attempts.new) }
    ensures err { OnErr result (state.new ≡ state.old) }
    ensures same { OnErr result (AreSame attempts.old attempts.new) }
{
    let Some(found) = attempts.find(attempt) else {
        return Ok(Reply::Refused(StepRefused::NoAttempt));
    };
    let lock = *found.lock();
    let need = found.need();
    if state.has_lock(alloc, &lock)? {
        return Ok(Reply::Refused(StepRefused::LockHeld));
    }
    match state.allocate(alloc, lock.replica, &lock.id, need) {
        Ok(lock) => {
            attempts.renew(attempt, lock);
            Ok(Reply::Attempt {
                attempt,
                number: lock.number,
            })
        }
        Err(error) => match error.cause() {
            Some(why) => Ok(Reply::Refused(why)),
            None => Err(AllocError),
        },
    }
}

/// The attempt's block is staged at its replica. At an error no memory was left, and nothing changed.
pub(crate) fn stage(
    state: &mut State,
    attempts: &Attempts,
    attempt: u32,
) -> Result<Reply, AllocError>
    requires suit { SuitAttempts state.old attempts.now }
    ensures ok { IfOk result (λ reply. ActsWith state.old attempts.now (ev.Stage attempt) reply state.new attempts.now) }
    ensures err { OnErr result (state.new ≡ state.old) }
{
    let Some(found) = attempts.find(attempt) else {
        return Ok(Reply::Refused(StepRefused::NoAttempt));
    };
    let lock = *found.lock();
    let block = Arc::try_clone(found.block())?;
    match state.stage(lock.replica, lock.number, block) {
        Ok(()) => Ok(Reply::Done),
        Err(ReplicaError::Down) => Ok(Reply::Refused(StepRefused::Down)),
        Err(ReplicaError::Memory) => Err(AllocError),
    }
}

/// The staged block of an attempt, whose lock has gone, is let go, and the attempt ends. It takes no memory.
fn end(state: &mut State, attempts: &mut Attempts, attempt: u32, lock: &Lock)
    requires here { IsReplica state.old.tree lock.now.replica }
    ensures { EndsAt state.old attempts.old attempt lock.now state.new attempts.new }
{
    state.unstage(lock.replica, lock.id.partition, lock.number);
    attempts.end(attempt);
}

/// The attempt's block is accepted, and the attempt ends; so it does where the table refuses the block for good. At an error
/// no memory was left, and nothing changed.
pub(crate) fn commit(
    alloc: Global,
    state: &mut State,
    attempts: &mut Attempts,
    attempt: u32,
) -> Result<Reply, AllocError>
    requires suit { SuitAttempts state.old attempts.old }
    ensures ok { IfOk result (λ reply. ActsWith state.old attempts.old (ev.Commit attempt) reply state.new attempts.new) }
    ensures err { OnErr result (state.new ≡ state.old) }
    ensures same { OnErr result (AreSame attempts.old attempts.new) }
{
    let Some(found) = attempts.find(attempt) else {
        return Ok(Reply::Refused(StepRefused::NoAttempt));
    };
    let lock = *found.lock();
    if !state.has_staged(lock.replica, lock.id.partition, lock.number) {
        return Ok(Reply::Refused(StepRefused::NotStaged));
    }
    let values = state.values_of(found.block());
    let need = found.need();
    match state.commit(alloc, &lock, need, values) {
        Ok(place) => {
            attempts.end(attempt);
            Ok(Reply::Entry(place))
        }
        Err(error) => {
            let Some(why) = error.cause() else {
                return Err(AllocError);
            };
            if !is_final(&error) {
                return Ok(Reply::Refused(why));
            }
            end(state, attempts, attempt, &lock);
            Ok(Reply::Refused(why))
        }
    }
}

/// The attempt ends without a Get: its lock and its staged block go. At an error no memory was left, and nothing changed.
pub(crate) fn abandon(
    alloc: Global,
    state: &mut State,
    attempts: &mut Attempts,
    attempt: u32,
) -> Result<Reply, AllocError>
    requires suit { SuitAttempts state.old attempts.old }
    ensures ok { IfOk result (λ reply. ActsWith state.old attempts.old (ev.Abandon attempt) reply state.new attempts.new) }
    ensures err { OnErr result (state.new ≡ state.old) }
    ensures same { OnErr result (AreSame attempts.old attempts.new) }
{
    let Some(found) = attempts.find(attempt) else {
        return Ok(Reply::Refused(StepRefused::NoAttempt));
    };
    let lock = *found.lock();
    state.unlock(alloc, &lock)?;
    end(state, attempts, attempt, &lock);
    Ok(Reply::Done)
}
