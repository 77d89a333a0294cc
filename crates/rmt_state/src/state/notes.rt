//! Notes of the part that waits for its quorum, and the switch of a replica's fetches.
ghost use Rattle.std.specs.Prelude.{◌≡◌, IfOk, OnErr, map};
ghost use Rattle.rmt_events.specs.declared.event.Event.TheVariants as ev;
ghost use Rattle.rmt_events.specs.declared.reply.Reply.TheVariants as rp;
ghost use Rattle.rmt_events.specs.Draws.{pending_part_at};
ghost use Rattle.rmt_table.specs.TableTrees.{IsReplica};
ghost use Rattle.rmt_replica.specs.SeenReplica.{shown};
ghost use Rattle.rmt_state.specs.States.{Acts};
ghost use Rattle.rmt_state.specs.Notes.{IsReplyTo};

use crate::state::State;
use rmt_events::{Reply, StepRefused};
use rmt_replica::ReplicaError;
use rmt_values::ReplicaId;
use std::alloc::{AllocError, Global};

/// The reply to a note. At an error no memory was left.
fn reply_to(noted: Result<bool, ReplicaError>) -> Result<Reply, AllocError>
    ensures { IsReplyTo noted result }
{
    match noted {
        Ok(noted) => Ok(Reply::Noted(noted)),
        Err(ReplicaError::Down) => Ok(Reply::Refused(StepRefused::Down)),
        Err(ReplicaError::Memory) => Err(AllocError),
    }
}

impl State {
    /// A replica notes the part that waits for its quorum, where an active part of it covers that one. At an error no memory
    /// was left, and nothing changed.
    pub fn note(&mut self, alloc: Global, replica: ReplicaId) -> Result<Reply, AllocError>
        requires here { IsReplica self.old.tree replica }
        ensures ok { IfOk result (λ reply. Acts self.old (ev.Note replica) reply self.new) }
        ensures err { OnErr result (self.new ≡ self.old) }
    {
        let noted = self.replicas[usize::from(replica) - 1].note(alloc, &mut self.tree);
        reply_to(noted)
    }

    /// Whether an active part of a replica covers the part that waits for its quorum; false where none waits.
    pub fn has_pending(&self, replica: ReplicaId) -> bool
        requires here { IsReplica self.now.tree replica }
        ensures { result ≡ pending_part_at self.now.tree.quorum.pending (map shown self.now.replicas) replica }
    {
        let Some(part) = self.tree.pending_part() else {
            return false;
        };
        let worker = &self.replicas[usize::from(replica) - 1];
        worker.covering(&part).is_some()
    }

    /// Allows or stops the fetches of a replica. It takes no memory.
    pub fn set_fetches(&mut self, replica: ReplicaId, allowed: bool)
        requires here { IsReplica self.old.tree replica }
        ensures { Acts self.old (ev.Fetches replica allowed) rp.Done self.new }
    {
        self.replicas[usize::from(replica) - 1].set_fetches(allowed);
    }
}
