//! A replica copies the rest of the log.
ghost use Rattle.std.specs.Prelude.{IfOk, OnErr};
ghost use Rattle.rmt_events.specs.declared.event.Event.TheVariants as ev;
ghost use Rattle.rmt_table.specs.TableTrees.{IsReplica};
ghost use Rattle.rmt_state.specs.States.{Acts};
ghost use Rattle.rmt_state.specs.Pulls.{IsReplyTo, PullsSome};

use crate::state::State;
use rmt_events::{Reply, StepRefused};
use rmt_replica::ReplicaError;
use rmt_values::ReplicaId;
use std::alloc::{AllocError, Global};

/// The reply to a pull. At an error no memory was left.
fn reply_to(pulled: Result<u32, ReplicaError>) -> Result<Reply, AllocError>
    ensures { IsReplyTo pulled result }
{
    match pulled {
        Ok(len) => Ok(Reply::Pulled(len)),
        Err(ReplicaError::Down) => Ok(Reply::Refused(StepRefused::Down)),
        Err(ReplicaError::Memory) => Err(AllocError),
    }
}

impl State {
    /// A replica copies the rest of the log. At an error no memory was left, and the replica may have copied some of it.
    pub fn pull(&mut self, alloc: Global, replica: ReplicaId) -> Result<Reply, AllocError>
        requires here { IsReplica self.old.tree replica }
        ensures ok { IfOk result (λ reply. Acts self.old (ev.Pull replica) reply self.new) }
        ensures err { OnErr result (PullsSome self.old replica self.new) }
    {
        let pulled = self.replicas[usize::from(replica) - 1].pull(alloc, &mut self.tree);
        reply_to(pulled)
    }
}
