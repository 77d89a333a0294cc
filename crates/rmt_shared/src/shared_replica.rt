ghost use Rattle.std.specs.Prelude.{◌≡◌, ◌<◌, ◌⊎◌, false, length, IfOk, OnOk, IfSome, MatchBool};
ghost use Rattle.std.specs.declared.result.Result.TheVariants.{Err};
ghost use Rattle.rmt_replica.specs.declared.replica_error.ReplicaError.TheVariants as errors;
ghost use Rattle.rmt_replica.specs.Replicas.{LengthensCopy};
ghost use Rattle.rmt_shared.specs.SharedTables.{logs_of, log_in, views_of, name_at};
ghost use Rattle.rmt_statement_model.specs.Books.{GainWork};
ghost use Rattle.rmt_jobs.specs.Jobs.{IsJob};
ghost use Rattle.rmt_shared.specs.SharedReplicas.{IsSharedReplica, IsBegun, IsMadeOf, IsPulled, MayLengthen};
ghost use Rattle.rmt_part.specs.CellRows.{IsPartOfRow};
ghost use Rattle.rmt_replica.specs.Supplies.{supplied};
ghost use Rattle.rmt_replica.specs.Answers.{IsAnswer, IsChange, IsOfTable};

mod outside;
mod take;

use crate::naming::Naming;
use crate::shared_tables::SharedTables;
use rmt_jobs::{Job, next_job};
use rmt_replica::{Applied, ApplyError, Replica, ReplicaError, Supply};
use std::alloc::{AllocError, Global};
use std::marker::{Model, PhantomData};

/// What lies under a replica's lock: the replica, and the place of its table. Contracts see both.
#[derive(Drop)]
pub struct SharedReplica<N: Naming> {
    table: usize,
    replica: Replica,
    of: PhantomData<N>,
}

impl<N: Naming> Model for SharedReplica<N> {
    ghost use Rattle.rmt_shared.specs.SharedReplicas.{SharedReplicaView, IsSharedReplica};
    ghost use Rattle.std.specs.Coded.{codes};
    ghost use Rattle.rmt_values.specs.contracts.checked.Checked as filter;

    ghost Value = { SharedReplicaView };

    ghost coded = { Prim.hlevel (codes, filter.the_row.coded) };

    ghost view = { λ s. record { table = s.table; replica = s.replica } };

    ghost invariant = { λ s. IsSharedReplica N.tables N.replicas N.offered (record { table = s.table; replica = s.replica }) };
}

impl<N: Naming> SharedReplica<N> {
    /// A replica of the table at a place, counted from 0.
    pub fn new(table: usize, replica: Replica) -> SharedReplica<N>
        requires { IsSharedReplica N.tables N.replicas N.offered (record { table = table; replica = replica }) }
        ensures { result ≡ record { table = table; replica = replica } }
    {
        SharedReplica {
            table,
            replica,
            of: PhantomData,
        }
    }

    /// The place of its table.
    pub fn table(&self) -> usize
        ensures { result ≡ self.now.table }
    {
        self.table
    }

    /// The replica.
    pub fn replica(&self) -> &Replica
        ensures same { result.now ≡ self.now.replica }
        ensures shared { IsSharedReplica N.tables N.replicas N.offered self.now }
    {
        &self.replica
    }

    /// The replica, apart from its lock.
    pub fn into_replica(self) -> Replica
        ensures { result ≡ self.replica }
    {
        let SharedReplica { replica, .. } = self;
        replica
    }

    /// Brings the replica's copy of its table's log to the log's length, and tells whether it did: it doesn't where the log is
    /// shorter than the copy.
    ///
    /// # Errors
    ///
    /// Down where the replica isn't up. Out of memory: its copy may be longer.
    pub fn pull(
        &mut self,
        alloc: Global,
        tables: &mut SharedTables<N>,
    ) -> Result<bool, ReplicaError>
        requires table { self.old.table < length tables.old }
        ensures logs { logs_of tables.new ≡ logs_of tables.old }
        ensures seen { views_of tables.new ≡ views_of tables.old }
        ensures table { self.new.table ≡ self.old.table }
        ensures longer { LengthensCopy self.old.replica self.new.replica }
        ensures ok { IfOk result (λ met. MatchBool met
            (self.new.replica.log ≡ log_in tables.old self.old.table) (self.new ≡ self.old)) }
        ensures shorter { IfOk result (λ met. (met ≡ false) → length (log_in tables.old self.old.table) < length self.old.replica.log) }
        ensures down { (result ≡ Err errors.Down) → self.old.replica.up ≡ false }
    {
        tables.pull(alloc, self.table, &mut self.replica)
    }

    /// Decides what background work comes next at the replica, and does of it what is done under both locks: its copy of the
    /// log is brought to the log's length, or a merge or a mutate enters the log, unless the table refuses it. An entry that
    /// is to be done is left to do.
    ///
    /// At an error no memory was left. The replica's copy may be longer.
    pub fn decide(&mut self, alloc: Global, tables: &mut SharedTables<N>) -> Result<Job, AllocError>
        requires table { self.old.table < length tables.old }
        ensures job { IfOk result (IsJob self.old.replica (length (log_in tables.old self.old.table))) }
        ensures begun { IfOk result (λ job. IsBegun self.old tables.old job self.new tables.new) }
        ensures works { GainWork (logs_of tables.old) (logs_of tables.new) }
        ensures table { self.new.table ≡ self.old.table }
        ensures longer { MayLengthen self.old.replica self.new.replica }
    {
        let len = tables.log_len(self.table);
        let job = next_job(alloc, &self.replica, len)?;
        self.begin(alloc, tables, &job)?;
        Ok(job)
    }

    /// Does the entry at a place of the replica's copy with what is supplied, which was made with no lock held.
    pub fn install(&mut self, i: usize, supply: Supply) -> Result<Applied, ApplyError>
        requires place { i < length self.old.replica.log }
        requires schema { IfSome (supplied supply)
            (λ part. part.schema ≡ (name_at N.tables self.old.table).schema) }
        requires row { IfSome (supplied supply)
            (IsPartOfRow (name_at N.tables self.old.table).row) }
        requires offered { IfSome (supplied supply) (IsMadeOf (N.offered self.old.table)) }
        ensures answer { IsAnswer self.old.replica i supply result }
        ensures change { IsChange self.old.replica i supply result self.new.replica }
        ensures table { self.new.table ≡ self.old.table }
    {
        self.meet(&supply);
        self.replica.apply(i, supply)
    }

    /// A part that is of the cells of the table's log is of the replica's copy of it.
    fn meet(&self, supply: &Supply)
        requires schema { IfSome (supplied supply.now)
            (λ part. part.schema ≡ (name_at N.tables self.now.table).schema) }
        requires row { IfSome (supplied supply.now)
            (IsPartOfRow (name_at N.tables self.now.table).row) }
        ensures { IfSome (supplied supply.now) (IsOfTable self.now.replica) }
    {
        match supply {
            Supply::Nothing => {}
            Supply::Built(part) | Supply::Fetched(part) => self.replica.meet_part(part),
        }
    }

    /// Does of a job that comes next at the replica what is done under both locks.
    ///
    /// At an error no memory was left. The replica's copy may be longer.
    fn begin(
        &mut self,
        alloc: Global,
        tables: &mut SharedTables<N>,
        job: &Job,
    ) -> Result<(), AllocError>
        requires table { self.old.table < length tables.old }
        ensures begun { OnOk result (IsBegun self.old tables.old job.now self.new tables.new) }
        ensures works { GainWork (logs_of tables.old) (logs_of tables.new) }
        ensures table { self.new.table ≡ self.old.table }
        ensures longer { MayLengthen self.old.replica self.new.replica }
    {
        match job {
            Job::Pull => self.try_pull(alloc, tables),
            Job::Merge(names) => {
                tables.assign_merge(alloc, self.table, self.replica.copy(), names.as_slice())?;
                Ok(())
            }
            Job::Mutate { old, upto } => {
                tables.assign_mutate(alloc, self.table, self.replica.copy(), old, *upto)?;
                Ok(())
            }
            Job::Apply(_) | Job::Idle => Ok(()),
        }
    }

    /// Brings the replica's copy of its table's log to the log's length, where the replica is up and the log isn't shorter. At
    /// an error no memory was left, and its copy may be longer.
    fn try_pull(&mut self, alloc: Global, tables: &mut SharedTables<N>) -> Result<(), AllocError>
        requires table { self.old.table < length tables.old }
        ensures pulled { OnOk result (IsPulled self.old tables.old self.new) }
        ensures logs { logs_of tables.new ≡ logs_of tables.old }
        ensures seen { views_of tables.new ≡ views_of tables.old }
        ensures table { self.new.table ≡ self.old.table }
        ensures longer { MayLengthen self.old.replica self.new.replica }
    {
        match self.pull(alloc, tables) {
            Ok(_) | Err(ReplicaError::Down) => Ok(()),
            Err(ReplicaError::Memory) => Err(AllocError),
        }
    }
}
