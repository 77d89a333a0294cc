//! What a worker does.
ghost use Rattle.std.specs.Prelude.{◌≡◌, ⊤, IfOk, IfSome};
ghost use Rattle.std.specs.Arc.{arc_value};
ghost use Rattle.rmt_shared.specs.SharedTables.{name_at};
ghost use Rattle.rmt_tickets.specs.Tickets.{Serves};
ghost use Rattle.rmt_workers.specs.Crews.{IsNeededOf};

use crate::crew::Crew;
use crate::crew::entries::schema_of;
use crate::needed::Needed;
use crate::worker::Worker;
use rmt_jobs::Job;
use rmt_outside::Gate;
use rmt_shared::{Naming, SharedReplica};
use rmt_tickets::{NamesQueue, Served, TicketQueue, Tickets};
use rmt_values::{ReplicaId, Schema};
use std::alloc::{AllocError, Global};
use std::sync::atomic::Ordering;
use std::sync::{Arc, Wait};

impl<N: Naming> Crew<N> {
    /// Decides what comes next at a replica, and does of it what is done under both locks: gives the place of an entry that
    /// is to be done, and the table's schema. At an error no memory was left.
    fn begin<R: Wait>(
        &self,
        rt: &R,
        here: &mut SharedReplica<N>,
    ) -> Result<Option<(u32, Arc<Schema, Global>)>, AllocError>
        ensures table { here.new.table ≡ here.old.table }
        ensures schema { IfOk result (λ entry. IfSome entry
            (λ e. arc_value e.1 ≡ (name_at N.tables here.old.table).schema)) }
    {
        let mut guard = self.tables.lock(rt);
        let tables = &mut *guard;
        if here.table() >= tables.len() {
            return Ok(None);
        }
        let schema = schema_of(tables, here.table())?;
        match here.decide(self.alloc, tables)? {
            Job::Apply(place) => Ok(Some((place, schema))),
            Job::Pull | Job::Merge(_) | Job::Mutate { .. } | Job::Idle => Ok(None),
        }
    }

    /// Decides what comes next at a replica, and takes out of it what an entry needs that is to be done. At an error no
    /// memory was left.
    fn decide<R: Wait>(
        &self,
        rt: &R,
        table: usize,
        replica: ReplicaId,
    ) -> Result<Option<Needed>, AllocError>
        ensures { IfOk result (λ needed. IfSome needed (IsNeededOf (name_at N.tables table) (N.offered table))) }
    {
        let Some(mut guard) = self.find_replica(rt, table, replica) else {
            return Ok(None);
        };
        let here = &mut *guard;
        let Some((place, schema)) = self.begin(rt, here)? else {
            return Ok(None);
        };
        self.take_at(here, place as usize, schema)
    }

    /// Does what comes next at a replica of the table at a place: its copy of the log is brought to the log's length, or an
    /// entry is done, or a merge or a mutate enters the log; nothing where it is down or has nothing to do. It may be
    /// refused. At an error no memory was left.
    pub fn work<R: Wait, G: Gate>(
        &self,
        rt: &R,
        table: usize,
        replica: ReplicaId,
        gate: &G,
    ) -> Result<(), AllocError> {
        let Some(needed) = self.decide(rt, table, replica)? else {
            return Ok(());
        };
        let _has_gone_on = self.do_entry(rt, table, replica, needed, gate)?;
        Ok(())
    }

    /// Takes tickets from a queue and does what comes next at the replica of the table that each names, until the crew is
    /// stopped, memory runs out, or a count is at its last value; tells which it was.
    pub fn serve<Q: NamesQueue, R: Wait, G: Gate>(
        &self,
        rt: &R,
        queue: &TicketQueue<Q>,
        tickets: &mut Tickets<Q>,
        gate: &G,
    ) -> Served
        ensures { Serves (λ t r. ⊤) tickets.old result tickets.new }
    {
        let worker = Worker {
            rt,
            crew: self,
            gate,
        };
        tickets.serve(rt, queue, &self.stopped, &worker)
    }

    /// Has each worker end once it has put back the ticket that it has.
    pub fn stop(&self) {
        self.stopped.store(true, Ordering::SeqCst);
    }
}
