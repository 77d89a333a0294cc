//! A client's inserts of one block: a number, and then the entry.
ghost use Rattle.std.specs.Prelude.{◌≡◌, ◌≢◌, ◌<◌, true, length, IfOk, OnErr, OnOk};
ghost use Rattle.rmt_block.specs.Blocks.{id_of};
ghost use Rattle.rmt_events.specs.Views.{Block as BlockOf};
ghost use Rattle.rmt_events.specs.Clusters.{without_kinds};
ghost use Rattle.rmt_statement_model.specs.Inserts.{asked_at};
ghost use Rattle.rmt_clients.specs.Clients.{Client};
ghost use Rattle.rmt_shared.specs.SharedReplicas.{IsNumber};
ghost use Rattle.rmt_shared.specs.ClientCalls.{HasTable};
ghost use Rattle.rmt_pass.specs.Passes.{IsCurrent, KeepsOthers, KeepsPass, client_at, up_in};
ghost use Rattle.rmt_pass.specs.InsertSteps.{AreOpen, CommitsTo, HoldsLock, HoldsNumber, IsIdOf, IsLate, IsUncommitted, IsUnnumbered, Numbers, WasGone};
ghost use Rattle.rmt_table.specs.declared.allocate_error.AllocateError.TheVariants.{NoSession};

use crate::committed::Committed;
use crate::numbered::Numbered;
use crate::pass::{Pass, take_over};
use rmt_block::{Block, BlockId};
use rmt_reply::Refusal;
use rmt_shared::{Naming, SharedTables};
use rmt_table::{AllocateError, CommitError, Lock};
use rmt_values::ReplicaId;
use std::alloc::{AllocError, Global};

/// What becomes of a block that got no number, at a replica that has a session. At an error no memory was left.
fn unnumbered(error: AllocateError) -> Result<Numbered, AllocError>
    requires { error ≡ NoSession → ⊥ }
    ensures { IsUnnumbered error result }
{
    match error {
        AllocateError::TooFewLive { live, need } => {
            Ok(Numbered::Refused(Refusal::TooFewLive { live, need }))
        }
        AllocateError::QuorumPending(part) => Ok(Numbered::Refused(Refusal::QuorumPending(part))),
        AllocateError::Duplicate(part) => Ok(Numbered::Duplicate(part)),
        AllocateError::LimitReached { limit, value } => {
            Ok(Numbered::Refused(Refusal::LimitReached { limit, value }))
        }
        AllocateError::Memory => Err(AllocError),
        AllocateError::NoSession => unreachable!(),
    }
}

/// What becomes of a block with a number that isn't accepted, where it was new before. At an error no memory was left.
fn uncommitted(error: CommitError) -> Result<Committed, AllocError>
    requires { IsLate error }
    ensures { IsUncommitted error result }
{
    match error {
        CommitError::LimitReached { limit, value } => Ok(Committed::Full { limit, value }),
        CommitError::LockGone { .. } => Ok(Committed::LockGone),
        CommitError::Memory => Err(AllocError),
        CommitError::TooFewLive { .. }
        | CommitError::QuorumPending(_)
        | CommitError::Duplicate(_) => unreachable!(),
    }
}

impl<N: Naming> Pass<N> {
    /// Takes the next number of a block's partition in the table at a place, for a replica that is up; or tells why the block gets
    /// none. `need` is how many replicas the block is to be at, 0 for no quorum.
    ///
    /// At an error no memory was left, and the client may have given up.
    pub fn allocate(
        &mut self,
        alloc: Global,
        tables: &mut SharedTables<N>,
        table: usize,
        replica: ReplicaId,
        id: &BlockId,
        need: u32,
    ) -> Result<Numbered, AllocError>
        requires table { table < length self.old.tables }
        requires current { IsCurrent self.old table tables.old }
        requires here { IsNumber replica N.replicas }
        requires up { up_in self.old.up replica ≡ true }
        requires open { HasTable tables.old table (AreOpen (up_in self.old.up)) }
        ensures done { IfOk result (λ n. (b : BlockOf) → IsIdOf b id.now → Numbers N.offered self.old table (asked_at replica need) b n self.new) }
        ensures lock { IfOk result (λ n. HoldsLock n tables.new table) }
        ensures current { OnOk result (IsCurrent self.new table tables.new) }
        ensures others { KeepsOthers tables.old table tables.new }
        ensures err { OnErr result (KeepsPass self.old table self.new) }
    {
        match tables.allocate(alloc, table, replica, id, need) {
            Ok(lock) => {
                self.gave_up = true;
                take_over(alloc, &mut self.tables, tables, table)?;
                self.gave_up = false;
                Ok(Numbered::Taken(lock))
            }
            Err(error) => unnumbered(error),
        }
    }

    /// Accepts the block of a lock in the table at a place, where it is known at its writer then; or tells that there is no room for
    /// it, or that the lock was gone.
    ///
    /// At an error no memory was left, and the client may have given up.
    pub fn commit(
        &mut self,
        alloc: Global,
        tables: &mut SharedTables<N>,
        table: usize,
        lock: &Lock,
        need: u32,
        block: &Block,
    ) -> Result<Committed, AllocError>
        requires table { table < length self.old.tables }
        requires current { IsCurrent self.old table tables.old }
        requires here { IsNumber lock.now.replica N.replicas }
        requires quorum { need ≢ 1 }
        requires id { lock.now.id ≡ id_of block.now }
        requires offered { N.offered table (without_kinds block.now) }
        requires open { HasTable tables.old table (AreOpen (up_in self.old.up)) }
        requires held { (before : Client) × HoldsNumber (up_in self.old.up) (asked_at lock.now.replica need) (without_kinds block.now) lock.now before (client_at self.old table) }
        ensures done { IfOk result (λ c. (before : Client)
            → HoldsNumber (up_in self.old.up) (asked_at lock.now.replica need) (without_kinds block.now) lock.now before (client_at self.old table)
            → CommitsTo (N.offered table) (up_in self.old.up) (asked_at lock.now.replica need) (without_kinds block.now) before (client_at self.old table) c (client_at self.new table)) }
        ensures gone { IfOk result (λ c. WasGone c tables.old table lock.now) }
        ensures keeps { KeepsPass self.old table self.new }
        ensures current { OnOk result (IsCurrent self.new table tables.new) }
        ensures others { KeepsOthers tables.old table tables.new }
    {
        let place = tables.table(table).log_len() as usize;
        match tables.commit_insert(alloc, table, lock, need, block, &mut self.entries) {
            Ok(()) => {
                self.gave_up = true;
                take_over(alloc, &mut self.tables, tables, table)?;
                self.tables[table].learn(lock.replica, place)?;
                self.gave_up = false;
                Ok(Committed::Entry(place))
            }
            Err(error) => uncommitted(error),
        }
    }
}
