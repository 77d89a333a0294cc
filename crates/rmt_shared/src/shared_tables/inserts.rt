ghost use Rattle.std.specs.Prelude.{◌≡◌, ◌≢◌, ◌<◌, ◌+◌, ◌↔◌, length, IfOk, IfErr, IfSome, IsTrue, OnErr, OnOk};
ghost use Rattle.rmt_block.specs.Blocks.{id_of};
ghost use Rattle.rmt_events.specs.Clusters.{values_of as values_in, without_kinds};
ghost use Rattle.rmt_events.specs.TableCalls.{IsLocked, Unlocks};
ghost use Rattle.rmt_events.specs.TableRefusals.{NoNumber};
ghost use Rattle.rmt_table.specs.TableTrees.{table_at, AfterNoCommit};
ghost use Rattle.rmt_table.specs.Causes.{allocate_cause, commit_cause};
ghost use Rattle.rmt_table.specs.Refusals.{NoCommit};
ghost use Rattle.rmt_shared.specs.SharedTables.{ChangesTable};
ghost use Rattle.rmt_shared.specs.SharedReplicas.{IsNumber};
ghost use Rattle.rmt_shared.specs.ClientCalls.{AcceptsBlock, HasTable, GivesNumber};

use crate::naming::{ClientEntries, Naming};
use crate::shared_tables::SharedTables;
use rmt_block::{Block, BlockId};
use rmt_table::{AllocateError, CommitError, Lock, TableTree};
use rmt_values::ReplicaId;
use std::alloc::{AllocError, Global};
use std::sync::ledger::Share;

/// How many values a block has in a table: its rows times the table's columns.
fn values_of(tree: &TableTree, block: &Block) -> u64
    ensures { result ≡ values_in tree.now.schema block.now.rows }
{
    block.len() as u64 * tree.schema().columns().len() as u64
}

impl<N: Naming> SharedTables<N> {
    /// Takes the next number of a block's partition in the table at a place for the block, with a lock that lives with the
    /// replica's session. `need` is how many replicas have to note the block's part, 0 for no quorum.
    ///
    /// At an error nothing changes. At `Duplicate` the block was accepted before, and is in that part.
    pub fn allocate(
        &mut self,
        alloc: Global,
        table: usize,
        replica: ReplicaId,
        id: &BlockId,
        need: u32,
    ) -> Result<Lock, AllocateError>
        requires table { table < length self.old }
        requires here { IsNumber replica N.replicas }
        ensures ok { IfOk result (λ lock. ChangesTable self.old table
            (λ t u. GivesNumber replica id.now need lock t u) self.new) }
        ensures refused { IfErr result (λ e. IfSome (allocate_cause e)
            (λ why. HasTable self.old table
            (λ t. NoNumber (table_at t) replica id.now.partition id.now.digest need why))) }
        ensures err { OnErr result (self.new ≡ self.old) }
    {
        let lock = self.tables[table].allocate(alloc, replica, id, need)?;
        Ok(lock)
    }

    /// Accepts the block of a lock in the table at a place, and counts its entry to the share. Where the block asks for a quorum,
    /// its part waits for it then. `need` is how many replicas have to note the part, 0 for no quorum.
    ///
    /// At `LockGone` and `Memory` nothing changes, and at each other error the lock is gone.
    pub fn commit_insert(
        &mut self,
        alloc: Global,
        table: usize,
        lock: &Lock,
        need: u32,
        block: &Block,
        mine: &mut Share<ClientEntries<N>>,
    ) -> Result<(), CommitError>
        requires table { table < length self.old }
        requires here { IsNumber lock.now.replica N.replicas }
        requires quorum { need ≢ 1 }
        requires id { lock.now.id ≡ id_of block.now }
        requires offered { N.offered table (without_kinds block.now) }
        requires part { 0 < mine.old.parts }
        ensures ok { OnOk result (ChangesTable self.old table
            (λ t u. AcceptsBlock lock.now need block.now t u) self.new) }
        ensures counted { OnOk result (mine.new.amount ≡ mine.old.amount + 1) }
        ensures parts { mine.new.parts ≡ mine.old.parts }
        ensures refused { IfErr result (λ e. IfSome (commit_cause e)
            (λ why. HasTable self.old table
            (λ t. NoCommit (table_at t) lock.now need (values_in t.schema block.now.rows) why))) }
        ensures err { IfErr result (λ e. ChangesTable self.old table
            (λ t u. AfterNoCommit t lock.now e u) self.new) }
        ensures err_amount { OnErr result (mine.new.amount ≡ mine.old.amount) }
    {
        let tree = &mut self.tables[table];
        let values = values_of(tree, block);
        tree.commit_insert(alloc, lock, need, values)?;
        self.entries.add(mine, 1);
        Ok(())
    }

    /// Removes a lock of the table at a place, and tells whether it was there. At an error no memory was left, and nothing
    /// changes.
    pub fn abandon(&mut self, alloc: Global, table: usize, lock: &Lock) -> Result<bool, AllocError>
        requires table { table < length self.old }
        ensures there { IfOk result (λ there. HasTable self.old table
            (λ t. IsTrue there ↔ IsLocked (table_at t).locks lock.now.id.partition lock.now.number)) }
        ensures ok { OnOk result (ChangesTable self.old table
            (λ t u. Unlocks (table_at t) lock.now.id.partition lock.now.number (table_at u)) self.new) }
        ensures err { OnErr result (self.new ≡ self.old) }
    {
        let there = self.tables[table].abandon(alloc, lock)?;
        Ok(there)
    }

    /// Whether a lock is there in the table at a place. At an error no memory was left.
    pub fn has_lock(&self, alloc: Global, table: usize, lock: &Lock) -> Result<bool, AllocError>
        requires table { table < length self.now }
        ensures { IfOk result (λ held. HasTable self.now table
            (λ t. IsTrue held ↔ IsLocked (table_at t).locks lock.now.id.partition lock.now.number)) }
    {
        let held = self.tables[table].has_lock(alloc, lock)?;
        Ok(held)
    }
}
