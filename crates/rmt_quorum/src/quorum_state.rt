ghost use Rattle.std.specs.Prelude.{◌≡◌, ◌++◌, [], IfOk, MatchOption};
ghost use Rattle.std.specs.declared.option.Option.{Option};
ghost use Rattle.std.specs.declared.option.Option.TheVariants.{Some, None};
ghost use Rattle.rmt_model.specs.Quorum.{Pending, noted_with as with_noted, is_dropped_by, pending_after_drop, quorum_after_block, quorum_after_drop, quorum_after_note};
ghost use Rattle.rmt_table_model.specs.Nodes.{status_ops, noted_ops, pending_drop_ops as ops_of_pending_drop, last_drop_ops};

use crate::noted_replicas::with_replica;
use crate::ops::{create, delete, last_op, set, status_text};
use crate::pending_part::PendingPart;
use rmt_names::{PartName, PartitionId};
use rmt_tree::Op;
use rmt_values::ReplicaId;
use rmt_znodes::Znode;
use std::alloc::{AllocError, Global};
use std::marker::Model;

/// The quorum of a table: the part that waits for its own, and the last part whose quorum was met. It is what the znodes of
/// the table say; each change comes with the operations that make it of the tree.
#[derive(Drop)]
pub struct QuorumState {
    pending: Option<PendingPart>,
    last: Option<PartName>,
}

impl Model for QuorumState {
    ghost use Rattle.rmt_model.specs.Quorum.{Quorum};

    ghost Value = { Quorum };

    ghost view = { λ q. record { pending = q.pending; last = q.last } };
}

/// Whether a part lies in the range of a drop.
fn is_dropped(part: &PartName, partition: PartitionId, below: u32) -> bool
    ensures { result ≡ is_dropped_by partition below part.now }
{
    partition == part.partition() && part.max() < below
}

/// The operations that open the quorum of a part that needs so many replicas; none where it needs fewer than 2. At an error
/// no memory was left.
pub fn open_ops(alloc: Global, part: &PartName, need: u32) -> Result<Vec<Op>, AllocError>
    ensures { IfOk result (λ ops. ops.items ≡ status_ops part.now need) }
{
    if need < 2 {
        return Ok(Vec::new(alloc));
    }
    let op = create(alloc, Znode::Status, status_text(alloc, part, need, &[])?)?;
    Ok(vec![in alloc; op]?)
}

impl QuorumState {
    /// No part waits, and none was met.
    pub fn new() -> QuorumState
        ensures { result ≡ record { pending = None; last = None } }
    {
        QuorumState {
            pending: None,
            last: None,
        }
    }

    /// The part that waits for its quorum.
    pub fn pending(&self) -> Option<&PendingPart>
        ensures { MatchOption result (self.now.pending ≡ None) (λ p. self.now.pending ≡ Some p.now) }
    {
        self.pending.as_ref()
    }

    /// The last part whose quorum was met.
    pub fn last(&self) -> Option<PartName>
        ensures { result ≡ self.now.last }
    {
        self.last
    }

    /// Returns a copy. At an error no memory was left.
    pub fn copy(&self, alloc: Global) -> Result<QuorumState, AllocError>
        ensures { IfOk result (λ copy. copy ≡ self.now) }
    {
        let pending = match &self.pending {
            Some(pending) => Some(pending.copy(alloc)?),
            None => None,
        };
        let last = self.last;
        Ok(QuorumState { pending, last })
    }

    /// A block was accepted, of this part, and needs so many replicas; one that needs fewer than 2 changes nothing. It takes
    /// no memory.
    pub fn open(&mut self, alloc: Global, part: PartName, need: u32)
        ensures { self.new ≡ quorum_after_block part need self.old }
    {
        if need >= 2 {
            self.pending = Some(PendingPart::new(alloc, part, need));
        }
    }

    /// The replicas that have noted the pending part, with one more at its place; none where no part is pending. At an error no
    /// memory was left.
    pub fn noted_with(
        &self,
        alloc: Global,
        replica: ReplicaId,
    ) -> Result<Vec<ReplicaId>, AllocError>
        ensures waits { (q : Pending) → self.now.pending ≡ Some q → IfOk result (λ noted. noted.items ≡ with_noted replica q.noted) }
        ensures none { self.now.pending ≡ None → IfOk result (λ noted. noted.items ≡ []) }
    {
        match &self.pending {
            Some(pending) => with_replica(alloc, &pending.noted, replica),
            None => Ok(Vec::new(alloc)),
        }
    }

    /// The operations that write that these replicas have noted the pending part: where they are as many as it needs, it is the
    /// last part then. None where no part is pending. At an error no memory was left.
    pub fn note_ops(&self, alloc: Global, noted: &[ReplicaId]) -> Result<Vec<Op>, AllocError>
        ensures waits { (q : Pending) → self.now.pending ≡ Some q → IfOk result (λ ops. ops.items ≡ noted_ops q noted.now self.now.last) }
        ensures none { self.now.pending ≡ None → IfOk result (λ ops. ops.items ≡ []) }
    {
        let Some(pending) = &self.pending else {
            return Ok(Vec::new(alloc));
        };
        if noted.len() < pending.need as usize {
            let text = status_text(alloc, &pending.part, pending.need, noted)?;
            let op = set(alloc, Znode::Status, text)?;
            return Ok(vec![in alloc; op]?);
        }
        let gone = delete(alloc, Znode::Status)?;
        let last = last_op(alloc, &pending.part, self.last)?;
        Ok(vec![in alloc; gone, last]?)
    }

    /// One more replica has noted the pending part; these have then. It takes no memory.
    pub fn note(&mut self, replica: ReplicaId, noted: Vec<ReplicaId>)
        requires are { (q : Pending) → self.old.pending ≡ Some q → noted.items ≡ with_noted replica q.noted }
        ensures { self.new ≡ quorum_after_note replica self.old }
    {
        let _ = replica;
        let Some(pending) = &mut self.pending else {
            return;
        };
        if pending.need as usize > noted.len() {
            pending.noted = noted;
            return;
        }
        self.last = Some(pending.part);
        self.pending = None;
    }

    /// The operations that take away what a drop of the numbers of a partition below one takes of the quorum. At an error no
    /// memory was left.
    pub fn drop_ops(
        &self,
        alloc: Global,
        partition: PartitionId,
        below: u32,
    ) -> Result<Vec<Op>, AllocError>
        ensures { IfOk result (λ ops. ops.items ≡ ops_of_pending_drop partition below self.now.pending ++ last_drop_ops partition below self.now.last) }
    {
        let mut ops = self.pending_drop_ops(alloc, partition, below)?;
        let Some(last) = &self.last else {
            return Ok(ops);
        };
        if !is_dropped(last, partition, below) {
            return Ok(ops);
        }
        let gone = delete(alloc, Znode::LastPart)?;
        ops.push(gone)?;
        Ok(ops)
    }

    /// The operation that takes away the pending part where a drop takes it. At an error no memory was left.
    fn pending_drop_ops(
        &self,
        alloc: Global,
        partition: PartitionId,
        below: u32,
    ) -> Result<Vec<Op>, AllocError>
        ensures { IfOk result (λ ops. ops.items ≡ ops_of_pending_drop partition below self.now.pending) }
    {
        let Some(pending) = &self.pending else {
            return Ok(Vec::new(alloc));
        };
        if !is_dropped(&pending.part, partition, below) {
            return Ok(Vec::new(alloc));
        }
        let gone = delete(alloc, Znode::Status)?;
        Ok(vec![in alloc; gone]?)
    }

    /// The numbers of a partition below one are dropped. It takes no memory.
    pub fn drop_below(&mut self, partition: PartitionId, below: u32)
        ensures { self.new ≡ quorum_after_drop partition below self.old }
    {
        self.drop_pending(partition, below);
        let Some(last) = &self.last else {
            return;
        };
        if is_dropped(last, partition, below) {
            self.last = None;
        }
    }

    /// The pending part goes where a drop takes it. It takes no memory.
    fn drop_pending(&mut self, partition: PartitionId, below: u32)
        ensures { self.new ≡ record { pending = pending_after_drop partition below self.old.pending; last = self.old.last } }
    {
        let Some(pending) = &self.pending else {
            return;
        };
        if is_dropped(&pending.part, partition, below) {
            self.pending = None;
        }
    }
}
