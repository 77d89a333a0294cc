//! What a client comes to know when a replica was brought up to date, or can't be, and when copies are made for a quorum.
ghost use Rattle.std.specs.Prelude.{◌≡◌, ◌<◌, List, None, false, length, IfOk, IfSome, MatchOption, OnErr, OnOk};
ghost use Rattle.rmt_model.specs.Quorum.{quorum_after_note};
ghost use Rattle.rmt_events.specs.TableCalls.{Notes};
ghost use Rattle.rmt_table_model.specs.Held.{Held};
ghost use Rattle.rmt_table.specs.TableTrees.{table_at};
ghost use Rattle.rmt_statement_model.specs.TableStates.{synced};
ghost use Rattle.rmt_statement_model.specs.LostSources.{LacksSource};
ghost use Rattle.rmt_statement_model.specs.QuorumCopies.{copied, copied_where, is_asked as is_asked_of, is_waiting as is_waiting_in};
ghost use Rattle.rmt_clients.specs.Clients.{KnowsTable, known_table};
ghost use Rattle.rmt_known.specs.KnownTables.{IsReplicaIn, KeepsCopy, client_of, known_state};
ghost use Rattle.rmt_shared.specs.SharedTables.{ChangesTable};
ghost use Rattle.rmt_shared.specs.SharedReplicas.{IsNumber};
ghost use Rattle.rmt_pass.specs.Passes.{IsCurrent, KeepsOthers, KeepsPass, TakesStep, client_at, up_in};
ghost use Rattle.rmt_pass.specs.DrainSteps.{IsGetAt, IsLostAt, IsPartOf, IsLostPart, noted_with};

use crate::learned::Learned;
use crate::lost_part::LostPart;
use crate::pass::Pass;
use rmt_entries::Entry;
use rmt_history::LogCopy;
use rmt_known::KnownTable;
use rmt_names::block_name;
use rmt_quorum::QuorumState;
use rmt_reply::Refusal;
use rmt_shared::{Naming, SharedTables};
use rmt_values::ReplicaId;
use std::alloc::{AllocError, Global};

/// Notes a replica for the part that waits for its quorum in the table at a place, where one does. At an error no memory was left.
fn note_in<N: Naming>(
    alloc: Global,
    tables: &mut SharedTables<N>,
    table: usize,
    replica: ReplicaId,
) -> Result<(), AllocError>
    requires table { table < length tables.old }
    requires here { IsNumber replica N.replicas }
    ensures ok { OnOk result (ChangesTable tables.old table (λ t u. Notes (table_at t) replica (table_at u)) tables.new) }
    ensures err { OnErr result (tables.new ≡ tables.old) }
{
    let Some(part) = tables.table(table).pending_part() else {
        return Ok(());
    };
    let _noted = tables.note_quorum(alloc, table, replica, &part)?;
    Ok(())
}

/// Notes a replica in what is known of a table for the part that waits for its quorum, where one does, and what else is known at it.
/// At an error no memory was left.
fn learn_noted(
    known: &mut KnownTable,
    alloc: Global,
    replica: ReplicaId,
    learned: Learned,
) -> Result<(), AllocError>
    requires { IsReplicaIn known.old replica }
    ensures ok { OnOk result (KnowsTable (client_of known.new) (noted_with learned replica (known_state known.old))) }
    ensures keeps { KeepsCopy known.old known.new }
{
    known.note(alloc, replica)?;
    match learned {
        Learned::Nothing => Ok(()),
        Learned::All => known.learn_all(replica),
        Learned::Place(place) => known.learn(replica, place),
    }
}

/// The Get at a place of a copy of a log, which isn't dropped; none where no such Get is there.
fn get_at(copy: &LogCopy, place: usize) -> Option<LostPart>
    ensures { MatchOption result (IsGetAt copy.now.log place → ⊥) (IsPartOf copy.now.log place) }
{
    if place >= copy.len() {
        return None;
    }
    let token = copy.entry(place).unwrap();
    let Entry::Get {
        partition,
        number,
        source,
        ..
    } = token.value()
    else {
        return None;
    };
    let part = block_name(*partition, *number);
    if copy.dropped_after(place, &part) {
        return None;
    }
    Some(LostPart {
        part,
        source: *source,
    })
}

/// Whether a part waits for its quorum.
fn is_waiting(quorum: &QuorumState) -> bool
    ensures { result ≡ is_waiting_in quorum.now.pending }
{
    match quorum.pending() {
        Some(_) => true,
        None => false,
    }
}

impl<N: Naming> Pass<N> {
    /// Notes a replica for the part that waits for its quorum in the table at a place, where one does, and what else is known at it.
    /// At an error no memory was left.
    fn note_with(
        &mut self,
        alloc: Global,
        tables: &mut SharedTables<N>,
        table: usize,
        replica: ReplicaId,
        learned: Learned,
    ) -> Result<(), AllocError>
        requires table { table < length self.old.tables }
        requires current { IsCurrent self.old table tables.old }
        requires here { IsNumber replica N.replicas }
        ensures ok { OnOk result (TakesStep N.offered self.old table (λ t u. u ≡ noted_with learned replica t) self.new) }
        ensures knows { OnOk result (KnowsTable (client_at self.new table) (noted_with learned replica (known_table (client_at self.old table)))) }
        ensures current { OnOk result (IsCurrent self.new table tables.new) }
        ensures others { KeepsOthers tables.old table tables.new }
        ensures err { OnErr result (KeepsPass self.old table self.new) }
    {
        note_in(alloc, tables, table, replica)?;
        learn_noted(&mut self.tables[table], alloc, replica, learned)?;
        Ok(())
    }

    /// Knows that a replica is up to date: every place of the table's log is known there, and it is noted where a part waits for its
    /// quorum.
    ///
    /// At an error no memory was left.
    pub fn catch_up(
        &mut self,
        alloc: Global,
        tables: &mut SharedTables<N>,
        table: usize,
        replica: ReplicaId,
    ) -> Result<(), AllocError>
        requires table { table < length self.old.tables }
        requires current { IsCurrent self.old table tables.old }
        requires here { IsNumber replica N.replicas }
        ensures ok { OnOk result (TakesStep N.offered self.old table (λ t u. u ≡ synced replica t) self.new) }
        ensures current { OnOk result (IsCurrent self.new table tables.new) }
        ensures others { KeepsOthers tables.old table tables.new }
        ensures err { OnErr result (KeepsPass self.old table self.new) }
    {
        self.note_with(alloc, tables, table, replica, Learned::All)
    }

    /// The part of the Get at a place of the log, and its source, where the Get is lost to a replica, for what the client knows.
    fn lost_at(&self, table: usize, replica: ReplicaId, place: usize) -> Option<LostPart>
        requires table { table < length self.now.tables }
        ensures { MatchOption result
            (IsLostAt (up_in self.now.up) (client_at self.now table) replica place → ⊥)
            (IsLostPart (up_in self.now.up) (client_at self.now table) replica place) }
    {
        let known = &self.tables[table];
        let Some(lost) = get_at(known.copy(), place) else {
            return None;
        };
        if self.is_up(lost.source) {
            return None;
        }
        if known.is_known(replica, place) {
            return None;
        }
        if known.is_known_at_one(&self.up, place) {
            return None;
        }
        Some(lost)
    }

    /// Knows that a replica lacks the part of the Get at a place of what is known of the log, and gives the refusal: the Get isn't
    /// dropped, its source is down, and the place is known neither at the replica nor at any that is up. What comes before it is known
    /// at the replica then. None where that isn't so, and nothing changes.
    ///
    /// At an error no memory was left, and nothing changes.
    pub fn lose(
        &mut self,
        table: usize,
        replica: ReplicaId,
        place: usize,
    ) -> Result<Option<Refusal>, AllocError>
        requires table { table < length self.old.tables }
        requires goes { self.old.gave_up ≡ false }
        requires here { IsNumber replica N.replicas }
        ensures ok { IfOk result (λ refused. MatchOption refused (self.new ≡ self.old)
            (λ why. TakesStep N.offered self.old table (λ t u. LacksSource (up_in self.old.up) t replica why u) self.new)) }
        ensures lost { IfOk result (λ refused. IfSome refused
            (λ why. IsLostAt (up_in self.old.up) (client_at self.old table) replica place)) }
        ensures none { IfOk result (λ refused. (refused ≡ None) → IsLostAt (up_in self.old.up) (client_at self.old table) replica place → ⊥) }
        ensures seen { OnOk result ((ts : List Held) → IsCurrent self.old table ts → IsCurrent self.new table ts) }
        ensures err { OnErr result (self.new ≡ self.old) }
    {
        let Some(lost) = self.lost_at(table, replica, place) else {
            return Ok(None);
        };
        self.tables[table].learn_below(replica, place)?;
        Ok(Some(Refusal::NoSource {
            part: lost.part,
            replica: lost.source,
        }))
    }

    /// Notes a replica for the part that waits for its quorum, where one does. At an error no memory was left.
    pub fn note(
        &mut self,
        alloc: Global,
        tables: &mut SharedTables<N>,
        table: usize,
        replica: ReplicaId,
    ) -> Result<(), AllocError>
        requires table { table < length self.old.tables }
        requires current { IsCurrent self.old table tables.old }
        requires here { IsNumber replica N.replicas }
        ensures ok { OnOk result (TakesStep N.offered self.old table (λ t u. u ≡ record t { quorum = quorum_after_note replica t.quorum }) self.new) }
        ensures current { OnOk result (IsCurrent self.new table tables.new) }
        ensures others { KeepsOthers tables.old table tables.new }
        ensures err { OnErr result (KeepsPass self.old table self.new) }
    {
        self.note_with(alloc, tables, table, replica, Learned::Nothing)
    }

    /// Knows that a replica has made its copy of the block whose Get is at a place, and notes it for the part that waits for its
    /// quorum.
    ///
    /// At an error no memory was left.
    fn note_copy(
        &mut self,
        alloc: Global,
        tables: &mut SharedTables<N>,
        table: usize,
        replica: ReplicaId,
        place: usize,
    ) -> Result<(), AllocError>
        requires table { table < length self.old.tables }
        requires current { IsCurrent self.old table tables.old }
        requires here { IsNumber replica N.replicas }
        ensures ok { OnOk result (TakesStep N.offered self.old table (λ t u. u ≡ copied place replica t) self.new) }
        ensures knows { OnOk result (KnowsTable (client_at self.new table) (copied place replica (known_table (client_at self.old table)))) }
        ensures current { OnOk result (IsCurrent self.new table tables.new) }
        ensures others { KeepsOthers tables.old table tables.new }
        ensures err { OnErr result (KeepsPass self.old table self.new) }
    {
        self.note_with(alloc, tables, table, replica, Learned::Place(place))
    }

    /// The same where the replica is asked for a copy of a writer's block; where it isn't, nothing changes. At an error no memory was left.
    pub fn copy_block(
        &mut self,
        alloc: Global,
        tables: &mut SharedTables<N>,
        table: usize,
        writer: ReplicaId,
        replica: ReplicaId,
        place: usize,
    ) -> Result<(), AllocError>
        requires table { table < length self.old.tables }
        requires current { IsCurrent self.old table tables.old }
        ensures ok { OnOk result (TakesStep N.offered self.old table
            (λ t u. u ≡ copied_where (is_asked_of t.quorum.pending (up_in self.old.up) t.fetching writer replica) place replica t) self.new) }
        ensures current { OnOk result (IsCurrent self.new table tables.new) }
        ensures others { KeepsOthers tables.old table tables.new }
        ensures err { OnErr result (KeepsPass self.old table self.new) }
    {
        // What always holds of the client is known here.
        let _replicas = self.up.len();
        if !self.is_asked(table, writer, replica) {
            return Ok(());
        }
        self.note_copy(alloc, tables, table, replica, place)
    }

    /// Whether a replica is asked for a copy of a writer's block: a part waits for its quorum, and it isn't the writer, is up and may
    /// fetch.
    pub fn is_asked(&self, table: usize, writer: ReplicaId, replica: ReplicaId) -> bool
        ensures { result ≡ is_asked_of (client_at self.now table).quorum.pending (up_in self.now.up) (client_at self.now table).fetching writer replica }
    {
        let Some(known) = self.tables.get(table) else {
            return false;
        };
        is_waiting(known.quorum())
            && replica != writer
            && self.is_up(replica)
            && known.may_fetch(replica)
    }
}
