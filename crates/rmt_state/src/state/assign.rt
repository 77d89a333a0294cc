//! Merges and mutations of parts, which the worker of a replica assigns.
ghost use Rattle.std.specs.Prelude.{◌≡◌, IfOk, OnErr};
ghost use Rattle.rmt_events.specs.declared.event.Event.TheVariants as ev;
ghost use Rattle.rmt_table.specs.TableTrees.{IsReplica};
ghost use Rattle.rmt_state.specs.States.{Acts};

use crate::causes::{merge_reply, mutate_reply};
use crate::state::State;
use rmt_events::{Reply, StepRefused};
use rmt_names::PartName;
use rmt_table::{are_mergeable, is_mutable};
use rmt_values::ReplicaId;
use std::alloc::{AllocError, Global};

impl State {
    /// A merge of neighbours among the live parts of a replica's copy enters the log. At an error no memory was left, and nothing
    /// changed.
    pub fn merge(
        &mut self,
        alloc: Global,
        replica: ReplicaId,
        sources: &[PartName],
    ) -> Result<Reply, AllocError>
        requires here { IsReplica self.old.tree replica }
        ensures ok { IfOk result (λ reply. Acts self.old (ev.Merge replica sources.now) reply self.new) }
        ensures err { OnErr result (self.new ≡ self.old) }
    {
        let worker = &self.replicas[usize::from(replica) - 1];
        if !worker.is_up() {
            return Ok(Reply::Refused(StepRefused::Down));
        }
        let copy = worker.copy();
        if !are_mergeable(copy, sources) {
            return Ok(Reply::Refused(StepRefused::NotLive));
        }
        let place = self.tree.log_len();
        let assigned = self.tree.assign_merge(alloc, copy, sources);
        merge_reply(place, assigned)
    }

    /// The mutation of a live part of a replica's copy, up to the mutation at a place, enters the log. At an error no memory was
    /// left, and nothing changed.
    pub fn mutate(
        &mut self,
        alloc: Global,
        replica: ReplicaId,
        old: &PartName,
        upto: u32,
    ) -> Result<Reply, AllocError>
        requires here { IsReplica self.old.tree replica }
        ensures ok { IfOk result (λ reply. Acts self.old (ev.Mutate replica old.now upto) reply self.new) }
        ensures err { OnErr result (self.new ≡ self.old) }
    {
        let worker = &self.replicas[usize::from(replica) - 1];
        if !worker.is_up() {
            return Ok(Reply::Refused(StepRefused::Down));
        }
        let copy = worker.copy();
        if !is_mutable(copy, old, upto as usize) {
            return Ok(Reply::Refused(StepRefused::NotLive));
        }
        let place = self.tree.log_len();
        let assigned = self.tree.assign_mutate(alloc, copy, old, upto as usize);
        mutate_reply(place, assigned)
    }
}
