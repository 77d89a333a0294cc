ghost use Rattle.std.specs.Prelude.{◌≡◌, ◌<◌, length, IfOk, IfSome, OnErr};
ghost use Rattle.std.specs.Sync.Mutex.{mutex_guard_value};
ghost use Rattle.rmt_pass.specs.Passes.{KeepsPass, SeesTable};
ghost use Rattle.rmt_pass.specs.Passes.{client_at, up_in};
ghost use Rattle.rmt_workers.specs.Crews.{IsReplicaAt, IsSetAsKnown};

mod begin;
mod changes;
mod close;
mod copies;
mod drain;
mod entries;
mod fetches;
mod insert;
mod optimize;
mod read;
mod switch;
mod turns;
mod waiting;
mod work;

use rmt_pass::Pass;
use rmt_shared::{Naming, SharedReplica, SharedTables};
use rmt_values::ReplicaId;
use std::alloc::{AllocError, Global};
use std::sync::atomic::AtomicBool;
use std::sync::{Mutex, MutexGuard, Wait};

/// Takes a replica of the table at a place up or down, and allows or stops its fetches, as the client has it.
pub(crate) fn set_as_known<N: Naming>(pass: &Pass<N>, table: usize, here: &mut SharedReplica<N>)
    requires { table < length pass.now.tables }
    ensures is { IsSetAsKnown pass.now table here.old here.new }
{
    let number = here.replica().number();
    let is_up = pass.is_up(number);
    if here.replica().is_up() != is_up {
        if is_up {
            here.restart();
        } else {
            here.kill();
        }
    }
    let allowed = pass.known(table).may_fetch(number);
    if here.replica().fetches() != allowed {
        here.set_fetches(allowed);
    }
}

/// The locks of a play: one round all tables, and one round each replica of each table. A thread that holds a replica's
/// lock may take that of the tables; never the other way, and never two replicas' locks.
#[derive(Drop)]
pub struct Crew<N: Naming> {
    tables: Mutex<SharedTables<N>>,
    /// The replicas of the first table first, and of each table the first one first.
    replicas: Vec<Vec<Mutex<SharedReplica<N>>>>,
    /// Whether the workers are to end.
    stopped: AtomicBool,
    alloc: Global,
}

impl<N: Naming> Crew<N> {
    /// Locks the tables once the client goes on from what it knows of the one at a place, and takes over what lies there.
    ///
    /// At an error no memory was left, now or before.
    pub(crate) fn see<'a, R: Wait>(
        &'a self,
        rt: &R,
        pass: &mut Pass<N>,
        table: usize,
    ) -> Result<MutexGuard<'a, SharedTables<N>>, AllocError>
        requires table { table < length pass.old.tables }
        ensures ok { IfOk result (λ g. SeesTable pass.old table (mutex_guard_value g) pass.new) }
        ensures err { OnErr result (KeepsPass pass.old table pass.new) }
    {
        'tries: for _ in rt.forever() {
            let mut guard = self.tables.lock(rt);
            let tables = &mut *guard;
            if pass.see(self.alloc, tables, table)? {
                return Ok(guard);
            }
        }
        unreachable!()
    }

    /// Locks a replica of the table at a place; `None` where there is none.
    pub(crate) fn find_replica<'a, R: Wait>(
        &'a self,
        rt: &R,
        table: usize,
        replica: ReplicaId,
    ) -> Option<MutexGuard<'a, SharedReplica<N>>>
        ensures { IfSome result (λ g. IsReplicaAt table replica (mutex_guard_value g)) }
    {
        if replica == 0 {
            return None;
        }
        let lock = self.replicas.get(table)?.get(usize::from(replica) - 1)?;
        let guard = lock.lock(rt);
        if guard.table() != table || guard.replica().number() != replica {
            return None;
        }
        Some(guard)
    }

    /// Locks a replica of the table at a place, which is there.
    pub(crate) fn lock_replica<'a, R: Wait>(
        &'a self,
        rt: &R,
        table: usize,
        replica: ReplicaId,
    ) -> MutexGuard<'a, SharedReplica<N>>
        ensures { IsReplicaAt table replica (mutex_guard_value result) }
    {
        'tries: for _ in rt.forever() {
            if let Some(guard) = self.find_replica(rt, table, replica) {
                return guard;
            }
        }
        unreachable!()
    }

    /// Locks a replica of the table at a place, which is up and may fetch as the client has it then.
    pub(crate) fn lock_known<'a, R: Wait>(
        &'a self,
        rt: &R,
        pass: &Pass<N>,
        table: usize,
        replica: ReplicaId,
    ) -> MutexGuard<'a, SharedReplica<N>>
        requires { table < length pass.now.tables }
        ensures at { IsReplicaAt table replica (mutex_guard_value result) }
        ensures up { (mutex_guard_value result).replica.up ≡ up_in pass.now.up replica }
    {
        let mut guard = self.lock_replica(rt, table, replica);
        let here = &mut *guard;
        set_as_known(pass, table, here);
        guard
    }
}
