//! A client's INSERT of one block: it takes a number, is staged at its writer, and goes in.
ghost use Rattle.std.specs.Prelude.{◌≡◌, ◌≢◌, ◌<◌, false, true, length, IfOk, OnErr, OnOk};
ghost use Rattle.std.specs.Arc.{arc_value};
ghost use Rattle.std.specs.Sync.Mutex.{mutex_guard_value};
ghost use Rattle.rmt_block.specs.Blocks.{id_of};
ghost use Rattle.rmt_events.specs.Views.{Block as BlockOf};
ghost use Rattle.rmt_events.specs.Clusters.{without_kinds};
ghost use Rattle.rmt_statement_model.specs.Inserts.{asked_at};
ghost use Rattle.rmt_clients.specs.Clients.{Client};
ghost use Rattle.rmt_shared.specs.SharedTables.{name_at};
ghost use Rattle.rmt_shared.specs.SharedReplicas.{IsNumber};
ghost use Rattle.rmt_shared.specs.ReplicaSupplies.{IsBlockOfNamed};
ghost use Rattle.rmt_pass.specs.Passes.{KeepsPass, TakesStep, client_at, up_in};
ghost use Rattle.rmt_pass.specs.InsertSteps.{HoldsNumber, IsIdOf};
ghost use Rattle.rmt_workers.specs.CrewInserts.{CommitsLater, InsertsFrom, InsertsOr, NumbersLater, SeesOpen};

use crate::crew::Crew;
use rmt_block::{Block, BlockId, id};
use rmt_names::block_name;
use rmt_outside::Gate;
use rmt_pass::{Committed, Numbered, Pass};
use rmt_replica::ReplicaError;
use rmt_reply::{Piece, Refusal};
use rmt_shared::{Naming, SharedTables};
use rmt_table::Lock;
use rmt_values::ReplicaId;
use std::alloc::{AllocError, Global};
use std::sync::{Arc, MutexGuard, Wait};

impl<N: Naming> Crew<N> {
    /// Locks the tables once the client goes on from what it knows of the one at a place, and sees to it that just the
    /// replicas that are up have a session there. At an error no memory was left.
    fn see_open<'a, R: Wait>(
        &'a self,
        rt: &R,
        pass: &mut Pass<N>,
        table: usize,
    ) -> Result<MutexGuard<'a, SharedTables<N>>, AllocError>
        requires table { table < length pass.old.tables }
        ensures ok { IfOk result (λ g. SeesOpen pass.old table (mutex_guard_value g) pass.new) }
        ensures err { OnErr result (KeepsPass pass.old table pass.new) }
    {
        let mut guard = self.see(rt, pass, table)?;
        let tables = &mut *guard;
        pass.open_sessions(self.alloc, tables, table)?;
        Ok(guard)
    }

    /// Takes the next number of a block's partition, or tells why the block gets none. At an error no memory was left.
    fn number<R: Wait>(
        &self,
        rt: &R,
        pass: &mut Pass<N>,
        table: usize,
        replica: ReplicaId,
        id: &BlockId,
        need: u32,
    ) -> Result<Numbered, AllocError>
        requires table { table < length pass.old.tables }
        requires here { IsNumber replica N.replicas }
        requires up { up_in pass.old.up replica ≡ true }
        ensures done { IfOk result (λ n. (b : BlockOf) → IsIdOf b id.now → NumbersLater N.offered pass.old table (asked_at replica need) b n pass.new) }
        ensures err { OnErr result (KeepsPass pass.old table pass.new) }
    {
        let mut guard = self.see_open(rt, pass, table)?;
        let tables = &mut *guard;
        let numbered = pass.allocate(self.alloc, tables, table, replica, id, need)?;
        Ok(numbered)
    }

    /// Accepts the block of a lock, or tells that there is no room for it. Where the lock is gone, it tries again. At an
    /// error no memory was left.
    fn commit<R: Wait>(
        &self,
        rt: &R,
        pass: &mut Pass<N>,
        table: usize,
        lock: &Lock,
        need: u32,
        block: &Block,
    ) -> Result<Committed, AllocError>
        requires table { table < length pass.old.tables }
        requires here { IsNumber lock.now.replica N.replicas }
        requires quorum { need ≢ 1 }
        requires id { lock.now.id ≡ id_of block.now }
        requires offered { N.offered table (without_kinds block.now) }
        requires held { (before : Client) × HoldsNumber (up_in pass.old.up) (asked_at lock.now.replica need) (without_kinds block.now) lock.now before (client_at pass.old table) }
        ensures done { IfOk result (λ c. (before : Client)
            → HoldsNumber (up_in pass.old.up) (asked_at lock.now.replica need) (without_kinds block.now) lock.now before (client_at pass.old table)
            → CommitsLater (N.offered table) (up_in pass.old.up) (asked_at lock.now.replica need) (without_kinds block.now) before c (client_at pass.new table)) }
        ensures keeps { KeepsPass pass.old table pass.new }
        ensures goes { OnOk result (pass.new.gave_up ≡ false) }
    {
        'tries: for _ in rt.forever() {
            let mut guard = self.see_open(rt, pass, table)?;
            let tables = &mut *guard;
            match pass.commit(self.alloc, tables, table, lock, need, block)? {
                Committed::Entry(place) => return Ok(Committed::Entry(place)),
                Committed::Full { limit, value } => return Ok(Committed::Full { limit, value }),
                Committed::LockGone => {}
            }
        }
        unreachable!()
    }

    /// Keeps a block under its number at a replica. At an error no memory was left.
    fn stage<R: Wait>(
        &self,
        rt: &R,
        pass: &Pass<N>,
        table: usize,
        replica: ReplicaId,
        number: u32,
        block: Arc<Block, Global>,
    ) -> Result<(), AllocError>
        requires table { table < length pass.now.tables }
        requires of { IsBlockOfNamed (name_at N.tables table) (N.offered table) (arc_value block) }
    {
        let mut guard = self.lock_known(rt, pass, table, replica);
        let here = &mut *guard;
        match here.stage(number, block) {
            Err(ReplicaError::Memory) => Err(AllocError),
            Ok(()) | Err(ReplicaError::Down) => Ok(()),
        }
    }

    /// Lets the block of a lock go that is staged at its writer.
    fn unstage<R: Wait>(&self, rt: &R, table: usize, lock: &Lock) {
        let mut guard = self.lock_replica(rt, table, lock.replica);
        let here = &mut *guard;
        here.unstage(lock.id.partition, lock.number);
    }

    /// Inserts the block of a lock, and has it copied where it asks for a quorum. At an error no memory was left.
    fn insert_numbered<R: Wait, G: Gate>(
        &self,
        rt: &R,
        pass: &mut Pass<N>,
        table: usize,
        lock: &Lock,
        block: Arc<Block, Global>,
        need: u32,
        gate: &G,
    ) -> Result<Result<Piece, Refusal>, AllocError>
        requires table { table < length pass.old.tables }
        requires here { IsNumber lock.now.replica N.replicas }
        requires quorum { need ≢ 1 }
        requires id { lock.now.id ≡ id_of (arc_value block) }
        requires of { IsBlockOfNamed (name_at N.tables table) (N.offered table) (arc_value block) }
        requires held { (before : Client) × HoldsNumber (up_in pass.old.up) (asked_at lock.now.replica need) (without_kinds (arc_value block)) lock.now before (client_at pass.old table) }
        ensures done { IfOk result (λ done. (before : Client)
            → HoldsNumber (up_in pass.old.up) (asked_at lock.now.replica need) (without_kinds (arc_value block)) lock.now before (client_at pass.old table)
            → InsertsFrom (N.offered table) (up_in pass.old.up) (asked_at lock.now.replica need) (without_kinds (arc_value block)) before done (client_at pass.new table)) }
        ensures keeps { KeepsPass pass.old table pass.new }
        ensures goes { OnOk result (pass.new.gave_up ≡ false) }
    {
        let staged = block.clone()?;
        self.stage(rt, pass, table, lock.replica, lock.number, staged)?;
        match self.commit(rt, pass, table, lock, need, &block)? {
            Committed::Entry(place) => {
                self.complete(rt, pass, table, lock.replica, place, gate)?;
                let unmet = self.gather(rt, pass, table, lock.replica, place, need, gate)?;
                match unmet {
                    None => Ok(Ok(Piece::Part(block_name(lock.id.partition, lock.number)))),
                    Some(have) => Ok(Err(Refusal::QuorumUnmet { have, need })),
                }
            }
            Committed::Full { limit, value } => {
                self.unstage(rt, table, lock);
                Ok(Err(Refusal::LimitReached { limit, value }))
            }
            Committed::LockGone => unreachable!(),
        }
    }

    /// Inserts a block at a replica that is up, into the table at a place: its part, or the part of a block that was
    /// accepted before; or the refusal. `need` is how many replicas the block is to be at, 0 for no quorum.
    ///
    /// At an error no memory was left, and the client may have given up.
    pub fn insert<R: Wait, G: Gate>(
        &self,
        rt: &R,
        pass: &mut Pass<N>,
        table: usize,
        replica: ReplicaId,
        block: Arc<Block, Global>,
        need: u32,
        gate: &G,
    ) -> Result<Result<Piece, Refusal>, AllocError>
        requires table { table < length pass.old.tables }
        requires here { IsNumber replica N.replicas }
        requires up { up_in pass.old.up replica ≡ true }
        requires quorum { need ≢ 1 }
        requires of { IsBlockOfNamed (name_at N.tables table) (N.offered table) (arc_value block) }
        ensures done { IfOk result (λ done. TakesStep N.offered pass.old table
            (InsertsOr (up_in pass.old.up) (asked_at replica need) (without_kinds (arc_value block)) done) pass.new) }
        ensures err { OnErr result (KeepsPass pass.old table pass.new) }
    {
        let id = id(&block);
        match self.number(rt, pass, table, replica, &id, need)? {
            Numbered::Taken(lock) => {
                self.insert_numbered(rt, pass, table, &lock, block, need, gate)
            }
            Numbered::Duplicate(part) => Ok(Ok(Piece::Duplicate(part))),
            Numbered::Refused(why) => Ok(Err(why)),
        }
    }
}
