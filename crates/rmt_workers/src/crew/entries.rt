//! Entries of the log that a replica does: what they need is taken out under its lock, built with no lock held, and installed under it.
ghost use Rattle.std.specs.Prelude.{◌≡◌, ◌<◌, length, IfOk, IfSome};
ghost use Rattle.std.specs.Arc.{arc_value};
ghost use Rattle.rmt_part.specs.CellRows.{IsPartOfRow};
ghost use Rattle.rmt_replica.specs.Supplies.{supplied};
ghost use Rattle.rmt_supply.specs.TakenParts.{CanBuild};
ghost use Rattle.rmt_shared.specs.SharedTables.{name_at};
ghost use Rattle.rmt_shared.specs.SharedReplicas.{IsMadeOf};
ghost use Rattle.rmt_shared.specs.ReplicaSupplies.{IsTakenFrom};
ghost use Rattle.rmt_workers.specs.Crews.{IsNeededOf};

use crate::crew::Crew;
use crate::needed::Needed;
use rmt_outside::{Gate, Point};
use rmt_pass::Pass;
use rmt_replica::{Applied, ApplyError, ReplicaError, Supply};
use rmt_shared::{Naming, SharedReplica, SharedTables, build_supply};
use rmt_values::{ReplicaId, Schema};
use std::alloc::{AllocError, Global};
use std::sync::{Arc, Wait};

/// The schema of the table at a place. At an error no memory was left.
pub(crate) fn schema_of<N: Naming>(
    tables: &SharedTables<N>,
    table: usize,
) -> Result<Arc<Schema, Global>, AllocError>
    requires { table < length tables.now }
    ensures { IfOk result (λ schema. arc_value schema ≡ (name_at N.tables table).schema) }
{
    let schema = tables.table(table).schema().clone()?;
    Ok(schema)
}

/// Lets the gate hold whoever has a part for the entry at a place. It passes over a table or a place that can't be told.
fn hold<G: Gate>(gate: &G, table: usize, replica: ReplicaId, place: usize) {
    if let (Ok(table), Ok(entry)) = (u8::try_from(table), u32::try_from(place)) {
        gate.pass(Point::BeforeCommit {
            table,
            replica,
            entry,
        });
    }
}

/// Whether an entry was left undone for want of memory.
fn installed(answer: Result<Applied, ApplyError>) -> Result<(), AllocError> {
    match answer {
        Err(ApplyError::Memory) => Err(AllocError),
        Ok(_) | Err(ApplyError::Down | ApplyError::FetchesStopped | ApplyError::NeedsPart(_)) => Ok(
            (),
        ),
    }
}

impl<N: Naming> Crew<N> {
    /// Brings a replica's copy of its table's log to the log's length, where it is up, and gives the table's schema. At an
    /// error no memory was left.
    fn pull<R: Wait>(
        &self,
        rt: &R,
        here: &mut SharedReplica<N>,
    ) -> Result<Option<Arc<Schema, Global>>, AllocError>
        ensures table { here.new.table ≡ here.old.table }
        ensures schema { IfOk result (λ schema. IfSome schema
            (λ s. arc_value s ≡ (name_at N.tables here.old.table).schema)) }
    {
        let mut guard = self.tables.lock(rt);
        let tables = &mut *guard;
        if here.table() >= tables.len() {
            return Ok(None);
        }
        if let Err(ReplicaError::Memory) = here.pull(self.alloc, tables) {
            return Err(AllocError);
        }
        let schema = schema_of(tables, here.table())?;
        Ok(Some(schema))
    }

    /// Takes what the entry at a place needs out of a replica; `None` where it has done it, or its copy is shorter. At an
    /// error no memory was left.
    pub(crate) fn take_at(
        &self,
        here: &SharedReplica<N>,
        place: usize,
        schema: Arc<Schema, Global>,
    ) -> Result<Option<Needed>, AllocError>
        requires schema { arc_value schema ≡ (name_at N.tables here.now.table).schema }
        ensures { IfOk result (λ needed. IfSome needed (IsNeededOf (name_at N.tables here.now.table) (N.offered here.now.table))) }
    {
        if place >= here.replica().copy().len() || here.replica().done(place) {
            return Ok(None);
        }
        let taken = here.take(self.alloc, place)?;
        Ok(Some(Needed {
            place,
            taken,
            schema,
        }))
    }

    /// Takes what the entry at a place needs out of a replica, once its copy has it; `None` where the replica has done it.
    /// At an error no memory was left.
    fn take_entry<R: Wait>(
        &self,
        rt: &R,
        pass: &Pass<N>,
        table: usize,
        replica: ReplicaId,
        place: usize,
    ) -> Result<Option<Needed>, AllocError>
        requires { table < length pass.now.tables }
        ensures { IfOk result (λ needed. IfSome needed (IsNeededOf (name_at N.tables table) (N.offered table))) }
    {
        let mut guard = self.lock_known(rt, pass, table, replica);
        let here = &mut *guard;
        let Some(schema) = self.pull(rt, here)? else {
            return Ok(None);
        };
        self.take_at(here, place, schema)
    }

    /// Has a replica do the entry at a place with what is supplied, unless it has gone on meanwhile. At an error no memory
    /// was left.
    pub(crate) fn install<R: Wait, G: Gate>(
        &self,
        rt: &R,
        table: usize,
        replica: ReplicaId,
        place: usize,
        supply: Supply,
        gate: &G,
    ) -> Result<(), AllocError>
        requires schema { IfSome (supplied supply) (λ part. part.schema ≡ (name_at N.tables table).schema) }
        requires row { IfSome (supplied supply) (IsPartOfRow (name_at N.tables table).row) }
        requires offered { IfSome (supplied supply) (IsMadeOf (N.offered table)) }
    {
        hold(gate, table, replica, place);
        let mut guard = self.lock_replica(rt, table, replica);
        let here = &mut *guard;
        if place >= here.replica().copy().len() {
            return Ok(());
        }
        installed(here.install(place, supply))
    }

    /// Has a replica do an entry, with what was taken out of it or with what another replica sends, and tells whether there
    /// was either. At an error no memory was left.
    pub(crate) fn do_entry<R: Wait, G: Gate>(
        &self,
        rt: &R,
        table: usize,
        replica: ReplicaId,
        needed: Needed,
        gate: &G,
    ) -> Result<bool, AllocError>
        requires { IsNeededOf (name_at N.tables table) (N.offered table) needed }
    {
        let Needed {
            place,
            taken,
            schema,
        } = needed;
        match build_supply::<N>(self.alloc, table, taken, &schema)? {
            Some(supply) => {
                self.install(rt, table, replica, place, supply, gate)?;
                Ok(true)
            }
            None => self.fetch(rt, table, replica, place, schema, gate),
        }
    }

    /// Has a replica do the entry at a place, and waits until it has. At an error no memory was left.
    pub(crate) fn complete<R: Wait, G: Gate>(
        &self,
        rt: &R,
        pass: &Pass<N>,
        table: usize,
        replica: ReplicaId,
        place: usize,
        gate: &G,
    ) -> Result<(), AllocError>
        requires { table < length pass.now.tables }
    {
        'tries: for _ in rt.forever() {
            let Some(needed) = self.take_entry(rt, pass, table, replica, place)? else {
                return Ok(());
            };
            let _has_gone_on = self.do_entry(rt, table, replica, needed, gate)?;
        }
        unreachable!()
    }

    /// Takes what the first entry needs that a replica hasn't done out of it, once it has the whole log; `None` where it
    /// has done all. At an error no memory was left.
    pub(crate) fn take_first<R: Wait>(
        &self,
        rt: &R,
        pass: &Pass<N>,
        table: usize,
        replica: ReplicaId,
    ) -> Result<Option<Needed>, AllocError>
        requires { table < length pass.now.tables }
        ensures { IfOk result (λ needed. IfSome needed (IsNeededOf (name_at N.tables table) (N.offered table))) }
    {
        let mut guard = self.lock_known(rt, pass, table, replica);
        let here = &mut *guard;
        let Some(schema) = self.pull(rt, here)? else {
            return Ok(None);
        };
        let place = here.replica().first_pending();
        self.take_at(here, place, schema)
    }

    /// Has a replica do the first entry that it hasn't done, where there is one. At an error no memory was left.
    pub(crate) fn help<R: Wait, G: Gate>(
        &self,
        rt: &R,
        pass: &Pass<N>,
        table: usize,
        replica: ReplicaId,
        gate: &G,
    ) -> Result<(), AllocError>
        requires { table < length pass.now.tables }
    {
        let Some(needed) = self.take_first(rt, pass, table, replica)? else {
            return Ok(());
        };
        let _has_gone_on = self.do_entry(rt, table, replica, needed, gate)?;
        Ok(())
    }
}
