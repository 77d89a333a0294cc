ghost use Rattle.std.specs.Prelude.{◌≡◌, ◌<◌, ◌≤◌, ◌^◌, false, length, map, slice_index_or, IfOk, IsTrue, MatchBool, OnErr, OnOk};
ghost use Rattle.std.specs.declared.result.Result.TheVariants.{Err};
ghost use Rattle.rmt_model.specs.Words.{Each};
ghost use Rattle.rmt_model.specs.Lawful.{IsPrefix};
ghost use Rattle.rmt_replica.specs.declared.replica_error.ReplicaError.TheVariants as errors;
ghost use Rattle.rmt_replica.specs.Replicas.{LengthensCopy, copy_of};
ghost use Rattle.rmt_statement_model.specs.Books.{ArePrefixesOf, all_clients};
ghost use Rattle.rmt_shared.specs.SharedTables.{HasBlocks, HaveBlocks, named, logs_of, log_in, views_of, AppendsMerge, AppendsMutate, GainsMerge, GainsMutate, IsUnmerged, IsUnmutated, RefusesMerge, RefusesMutate, IsCopyOfNamed, name_at};
ghost use Rattle.rmt_table_model.specs.Held.{Held};
ghost use Rattle.rmt_table.specs.TableTrees.{IsCopyOf};
ghost use Rattle.rmt_events.specs.LogEvents.{AreMergeable, IsMutable};
ghost use Rattle.rmt_shared.specs.SharedReplicas.{IsNumber};

mod appends;
mod changes;
mod inserts;
mod sessions;

use crate::naming::{ClientEntries, Naming};
use rmt_history::LogCopy;
use rmt_names::PartName;
use rmt_replica::{Replica, ReplicaError};
use rmt_table::{TableTree, are_mergeable, is_mutable};
use std::alloc::{AllocError, Global};
use std::marker::Model;
use std::sync::ledger::{Blank, Book, Share};

/// What lies under the lock of all tables: the tables, in the order in which they were created, and the book in which their
/// entries of clients are counted. Contracts see the tables.
#[derive(Drop)]
pub struct SharedTables<N: Naming> {
    tables: Vec<TableTree>,
    entries: Book<ClientEntries<N>>,
}

impl<N: Naming> Model for SharedTables<N> {
    ghost use Rattle.std.specs.Prelude.{List};
    ghost use Rattle.rmt_table_model.specs.Held.{Held};
    ghost use Rattle.rmt_shared.specs.SharedTables.{AreSharedTables};
    ghost use Rattle.std.specs.Coded.{codes};
    ghost use Rattle.rmt_values.specs.contracts.checked.Checked as filter;
    ghost use Rattle.rmt_tree.specs.Trees.{tree_code};

    ghost Value = { List Held };

    ghost coded = { Prim.hlevel (codes, filter.the_row.coded, tree_code) };

    ghost view = { λ d. d.tables.items };

    ghost invariant = { λ d. AreSharedTables N.tables N.replicas N.offered d.tables.items d.entries.total };
}

/// How many entries of clients the logs of tables have.
fn count_clients(tables: &[TableTree]) -> u64
    requires few { length tables.now < 2 ^ 32 }
    ensures { result ≡ all_clients (logs_of tables.now) }
{
    let mut count = 0u64;
    'tables: for i in 0..tables.len() {
        count += u64::from(tables[i].client_entries());
    }
    count
}

/// Appends a merge of neighbours of a copy to the log of a table, and tells whether it did: the table may refuse it. At an
/// error no memory was left.
fn merge_in(
    alloc: Global,
    tree: &mut TableTree,
    copy: &LogCopy,
    sources: &[PartName],
) -> Result<bool, AllocError>
    requires of { IsCopyOf tree.old copy.now }
    requires neighbours { AreMergeable copy.now.log sources.now }
    ensures row { tree.new.row ≡ tree.old.row }
    ensures sessions { length tree.new.sessions ≡ length tree.old.sessions }
    ensures ok { IfOk result (λ done. MatchBool done
        (GainsMerge tree.old sources.now tree.new) (tree.new ≡ tree.old)) }
    ensures refused { IfOk result (λ done. (done ≡ false) → RefusesMerge tree.old (length copy.now.log) sources.now) }
    ensures err { OnErr result (tree.new ≡ tree.old) }
{
    match tree.assign_merge(alloc, copy, sources) {
        Ok(_token) => Ok(true),
        Err(error) => match error.cause() {
            Some(_why) => Ok(false),
            None => Err(AllocError),
        },
    }
}

/// Appends the mutate of a part, for which the mutation at a place of a copy is pending, to the log of a table, and tells
/// whether it did: the table may refuse it. At an error no memory was left.
fn mutate_in(
    alloc: Global,
    tree: &mut TableTree,
    copy: &LogCopy,
    old: &PartName,
    upto: usize,
) -> Result<bool, AllocError>
    requires of { IsCopyOf tree.old copy.now }
    requires pending { IsMutable copy.now.log old.now upto }
    ensures row { tree.new.row ≡ tree.old.row }
    ensures sessions { length tree.new.sessions ≡ length tree.old.sessions }
    ensures ok { IfOk result (λ done. MatchBool done
        (GainsMutate tree.old old.now upto tree.new) (tree.new ≡ tree.old)) }
    ensures refused { IfOk result (λ done. (done ≡ false) → RefusesMutate tree.old (length copy.now.log)) }
    ensures err { OnErr result (tree.new ≡ tree.old) }
{
    match tree.assign_mutate(alloc, copy, old, upto) {
        Ok(_token) => Ok(true),
        Err(error) => match error.cause() {
            Some(_why) => Ok(false),
            None => Err(AllocError),
        },
    }
}

impl<N: Naming> SharedTables<N> {
    /// The tables under a new book, and the share of it that has all parts and the count of their entries of clients.
    pub fn open(
        tables: Vec<TableTree>,
        entries: Blank,
    ) -> (SharedTables<N>, Share<ClientEntries<N>>)
        requires named { map named tables.items ≡ N.tables }
        requires sessions { Each (λ h. length h.sessions ≡ N.replicas) tables.items }
        requires blocks { HaveBlocks N.offered tables.items }
        requires few { length tables.items < 2 ^ 32 }
        requires name { entries.name ≡ N.entries_name }
        requires parts { entries.parts ≡ N.parts }
        requires some { 0 < N.parts }
        ensures tables { result.0 ≡ tables.items }
        ensures parts { result.1.parts ≡ N.parts }
        ensures amount { result.1.amount ≡ all_clients (logs_of tables.items) }
    {
        let count = count_clients(&tables);
        let (mut entries, mut all) = entries.open::<ClientEntries<N>>();
        entries.add(&mut all, count);
        (SharedTables { tables, entries }, all)
    }

    /// The tables.
    pub fn into_tables(self) -> Vec<TableTree>
        ensures { result.items ≡ self }
    {
        let SharedTables { tables, .. } = self;
        tables
    }

    /// Tells what always holds: the tables are those that the types name. It does nothing.
    pub fn has_named_tables(&self)
        ensures { map named self.now ≡ N.tables }
    {
        let _ = &self.tables;
    }

    /// Tells what always holds: the tables have no blocks but those that are offered to them. It does nothing.
    pub fn has_offered_blocks(&self)
        ensures { HaveBlocks N.offered self.now }
    {
        let _ = &self.tables;
    }

    /// The table at a place, counted from 0.
    pub fn table(&self, place: usize) -> &TableTree
        requires place { place < length self.now }
        ensures same { (h : Held) → result.now ≡ slice_index_or self.now place h }
        ensures named { named result.now ≡ name_at N.tables place }
        ensures sessions { length result.now.sessions ≡ N.replicas }
        ensures blocks { HasBlocks (N.offered place) result.now }
    {
        &self.tables[place]
    }

    /// How many tables there are.
    pub fn len(&self) -> usize
        ensures { result ≡ length self.now }
    {
        self.tables.len()
    }

    /// Tells whoever has all parts of the book that the logs have as many entries of clients as that share counts. It changes
    /// nothing.
    pub fn audit(&mut self, all: &mut Share<ClientEntries<N>>)
        requires { all.old.parts ≡ N.parts }
        ensures same { self.new ≡ self.old }
        ensures parts { all.new.parts ≡ all.old.parts }
        ensures amount { all.new.amount ≡ all.old.amount }
        ensures counted { all_clients (logs_of self.old) ≡ all.old.amount }
    {
        self.entries.audit(all);
    }

    /// Brings a replica's copy of the log of the table at a place to the log's length, and tells whether it did: it doesn't
    /// where that log is shorter than the copy.
    ///
    /// # Errors
    ///
    /// Down where the replica isn't up. Out of memory: its copy may be longer.
    pub fn pull(
        &mut self,
        alloc: Global,
        table: usize,
        replica: &mut Replica,
    ) -> Result<bool, ReplicaError>
        requires table { table < length self.old }
        requires here { IsNumber replica.old.number N.replicas }
        requires few { length replica.old.log ≤ 65536 }
        requires of { IsCopyOfNamed (name_at N.tables table) (copy_of replica.old) }
        ensures logs { logs_of self.new ≡ logs_of self.old }
        ensures seen { views_of self.new ≡ views_of self.old }
        ensures of { IsCopyOfNamed (name_at N.tables table) (copy_of replica.new) }
        ensures longer { LengthensCopy replica.old replica.new }
        ensures few { length replica.new.log ≤ 65536 }
        ensures ok { IfOk result (λ met. MatchBool met
            (replica.new.log ≡ log_in self.old table) (replica.new ≡ replica.old)) }
        ensures shorter { IfOk result (λ met. (met ≡ false) → length (log_in self.old table) < length replica.old.log) }
        ensures down { (result ≡ Err errors.Down) → replica.old.up ≡ false }
    {
        let tree = &mut self.tables[table];
        if !tree.meet(replica.copy()) {
            return Ok(false);
        }
        tree.no_limit_is_passed();
        replica.pull(alloc, tree)?;
        Ok(true)
    }

    /// How many entries the log of the table at a place has.
    pub fn log_len(&self, table: usize) -> u32
        requires { table < length self.now }
        ensures { result ≡ length (log_in self.now table) }
    {
        self.tables[table].log_len()
    }

    /// Appends a merge of these neighbours to the log of the table at a place, and tells whether it did: it doesn't where the
    /// log is shorter or longer than the copy that they were chosen from, where they are no neighbours there, and where the
    /// table refuses it. At an error no memory was left.
    pub fn assign_merge(
        &mut self,
        alloc: Global,
        table: usize,
        copy: &LogCopy,
        sources: &[PartName],
    ) -> Result<bool, AllocError>
        requires table { table < length self.old }
        requires of { IsCopyOfNamed (name_at N.tables table) copy.now }
        ensures ok { IfOk result (λ done. MatchBool done
            (AppendsMerge self.old table sources.now self.new)
            (self.new ≡ self.old)) }
        ensures refused { IfOk result (λ done. (done ≡ false) → IsUnmerged self.old table copy.now.log sources.now) }
        ensures err { OnErr result (self.new ≡ self.old) }
    {
        let tree = &mut self.tables[table];
        if !tree.meet(copy) {
            return Ok(false);
        }
        if !are_mergeable(copy, sources) {
            return Ok(false);
        }
        let done = merge_in(alloc, tree, copy, sources)?;
        Ok(done)
    }

    /// Appends the mutate of a part, up to the mutation at a place of a copy, to the log of the table at a place, and tells
    /// whether it did: it doesn't where the log is shorter or longer than the copy, where no mutation there is pending for the
    /// part, and where the table refuses it. At an error no memory was left.
    pub fn assign_mutate(
        &mut self,
        alloc: Global,
        table: usize,
        copy: &LogCopy,
        old: &PartName,
        upto: u32,
    ) -> Result<bool, AllocError>
        requires table { table < length self.old }
        requires of { IsCopyOfNamed (name_at N.tables table) copy.now }
        ensures ok { IfOk result (λ done. MatchBool done
            (AppendsMutate self.old table old.now upto self.new)
            (self.new ≡ self.old)) }
        ensures refused { IfOk result (λ done. (done ≡ false) → IsUnmutated self.old table copy.now.log old.now upto) }
        ensures err { OnErr result (self.new ≡ self.old) }
    {
        let upto = upto as usize;
        let tree = &mut self.tables[table];
        if !tree.meet(copy) {
            return Ok(false);
        }
        if !is_mutable(copy, old, upto) {
            return Ok(false);
        }
        let done = mutate_in(alloc, tree, copy, old, upto)?;
        Ok(done)
    }
}
