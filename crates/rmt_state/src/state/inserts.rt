//! The calls of an insert on the table, and on the replica that it is made at.
ghost use Rattle.std.specs.Prelude.{◌≡◌, ◌≢◌, ◌↔◌, IfOk, IfErr, IfSome, IsTrue, OnErr, OnOk, length};
ghost use Rattle.rmt_model.specs.BlockNumbers.{next_number};
ghost use Rattle.rmt_events.specs.TableCalls.{IsLocked, Allocates, Commits, Unlocks};
ghost use Rattle.rmt_events.specs.TableRefusals.{HasQuorum, NoNumber};
ghost use Rattle.rmt_events.specs.Clusters.{values_of as values_in};
ghost use Rattle.rmt_table.specs.TableTrees.{table_at, AfterNoCommit, IsReplica};
ghost use Rattle.rmt_table.specs.Causes.{allocate_cause, commit_cause};
ghost use Rattle.rmt_table.specs.Refusals.{NoCommit};

use crate::state::State;
use rmt_block::{Block, BlockId};
use rmt_table::{AllocateError, CommitError, Lock};
use rmt_values::ReplicaId;
use std::alloc::{AllocError, Global};

impl State {
    /// How many values a block of the table has: its rows times the table's columns.
    pub fn values_of(&self, block: &Block) -> u64
        ensures { result ≡ values_in self.now.tree.schema block.now.rows }
    {
        block.len() as u64 * self.tree.schema().columns().len() as u64
    }

    /// Whether a lock is there. At an error no memory was left.
    pub fn has_lock(&self, alloc: Global, lock: &Lock) -> Result<bool, AllocError>
        ensures { IfOk result (λ held. IsTrue held ↔ IsLocked (table_at self.now.tree).locks lock.now.id.partition lock.now.number) }
    {
        self.tree.has_lock(alloc, lock)
    }

    /// Takes the next number of a partition for a block, which asks for so many replicas.
    pub fn allocate(
        &mut self,
        alloc: Global,
        replica: ReplicaId,
        id: &BlockId,
        need: u32,
    ) -> Result<Lock, AllocateError>
        requires here { IsReplica self.old.tree replica }
        ensures lock { IfOk result (λ lock. lock ≡ record { replica = replica; session = lock.session; number = next_number self.old.tree.next id.now.partition; id = id.now }) }
        ensures has_quorum { OnOk result (HasQuorum (table_at self.old.tree) need) }
        ensures allocates { IfOk result (λ lock. Allocates (table_at self.old.tree) replica id.now.partition id.now.digest lock.number (table_at self.new.tree)) }
        ensures refused { IfErr result (λ e. IfSome (allocate_cause e)
            (NoNumber (table_at self.old.tree) replica id.now.partition id.now.digest need)) }
        ensures err { OnErr result (self.new ≡ self.old) }
        ensures replicas { self.new.replicas ≡ self.old.replicas }
    {
        self.tree.allocate(alloc, replica, id, need)
    }

    /// Accepts the block of a lock, which asks for so many replicas, 0 where it asks for no quorum. Its entry's place comes
    /// back.
    pub fn commit(
        &mut self,
        alloc: Global,
        lock: &Lock,
        need: u32,
        values: u64,
    ) -> Result<u32, CommitError>
        requires here { IsReplica self.old.tree lock.now.replica }
        requires need { need ≢ 1 }
        ensures place { IfOk result (λ place. place ≡ length self.old.tree.log) }
        ensures has_quorum { OnOk result (HasQuorum (table_at self.old.tree) need) }
        ensures commits { OnOk result (Commits (table_at self.old.tree) lock.now.id.partition lock.now.number lock.now.id.digest lock.now.replica need values (table_at self.new.tree)) }
        ensures refused { IfErr result (λ e. IfSome (commit_cause e)
            (NoCommit (table_at self.old.tree) lock.now need values)) }
        ensures err { IfErr result (λ e. AfterNoCommit self.old.tree lock.now e self.new.tree) }
        ensures replicas { self.new.replicas ≡ self.old.replicas }
        ensures sessions { length self.new.tree.sessions ≡ length self.old.tree.sessions }
    {
        let place = self.tree.log_len();
        self.tree.commit_insert(alloc, lock, need, values)?;
        Ok(place)
    }

    /// Removes a lock, where it is there. At an error no memory was left, and nothing changed.
    pub fn unlock(&mut self, alloc: Global, lock: &Lock) -> Result<(), AllocError>
        ensures unlocks { OnOk result (Unlocks (table_at self.old.tree) lock.now.id.partition lock.now.number (table_at self.new.tree)) }
        ensures err { OnErr result (self.new ≡ self.old) }
        ensures replicas { self.new.replicas ≡ self.old.replicas }
        ensures sessions { length self.new.tree.sessions ≡ length self.old.tree.sessions }
    {
        self.tree.abandon(alloc, lock)?;
        Ok(())
    }
}
