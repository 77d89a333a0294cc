ghost use Rattle.std.specs.Prelude.{◌≡◌, ◌<◌, false, true, length, IfOk, OnOk, OnErr, IsTrue, MatchBool};
ghost use Rattle.rmt_statement_model.specs.Books.{ArePrefixesOf, all_clients};
ghost use Rattle.rmt_shared.specs.SharedTables.{logs_of, name_at};
ghost use Rattle.rmt_model.specs.Lawful.{IsPrefix};
ghost use Rattle.rmt_shared.specs.ClientCalls.{HasTable};
ghost use Rattle.rmt_pass.specs.Passes.{AreKnownOf, IsKnownOf, IsShorter, IsUnmet, KeepsPass, Meets, SeesTable, TakesOver, TakesSome, known_at, known_in, logs_in, up_in};

mod alter;
mod drain;
mod drop;
mod insert;
mod mutate;
mod optimize;
mod read;
mod switch;

use rmt_known::KnownTable;
use rmt_shared::{ClientEntries, Naming, SharedTables};
use rmt_values::ReplicaId;
use std::alloc::{AllocError, Global};
use std::marker::Model;
use std::sync::ledger::Share;

/// What one client knows of the tables: of each what it has seen, which replicas are up, and its share of the book of client
/// entries, which has all parts.
#[derive(Drop)]
pub struct Pass<N: Naming> {
    tables: Vec<KnownTable>,
    /// Which replicas are up, the first one first.
    up: Vec<bool>,
    entries: Share<ClientEntries<N>>,
    /// An entry of the client is in a log, and no memory was left to note it.
    gave_up: bool,
}

impl<N: Naming> Model for Pass<N> {
    ghost use Rattle.rmt_pass.specs.Passes.{PassView, IsPass};
    ghost use Rattle.std.specs.Coded.{codes};
    ghost use Rattle.rmt_values.specs.contracts.checked.Checked as filter;

    ghost Value = { PassView };

    ghost coded = { Prim.hlevel (codes, filter.the_row.coded) };

    ghost view = { λ p. record { tables = p.tables.items; up = p.up.items; gave_up = p.gave_up } };

    ghost invariant = { λ p. IsPass N.tables N.replicas N.parts (record { tables = p.tables.items; up = p.up.items; gave_up = p.gave_up }) p.entries.parts p.entries.amount };
}

/// Whether no log is shorter than the copy of it. Then each copy is a prefix of its log.
fn are_prefixes<N: Naming>(known: &[KnownTable], tables: &SharedTables<N>) -> bool
    requires { AreKnownOf N.replicas N.tables known.now }
    ensures prefixes { IsTrue result → ArePrefixesOf (logs_in known.now) (logs_of tables.now) }
    ensures shorter { (result ≡ false) → IsShorter (logs_in known.now) (logs_of tables.now) }
{
    tables.has_named_tables();
    'tables: for i in 0..known.len() {
        if !tables.table(i).meet(known[i].copy()) {
            return false;
        }
    }
    true
}

/// Takes over what lies in the table at a place, whose log goes on from the copy of it. At an error no memory was left, and the copy
/// may be longer.
pub(crate) fn take_over<N: Naming>(
    alloc: Global,
    known: &mut Vec<KnownTable>,
    tables: &SharedTables<N>,
    table: usize,
) -> Result<(), AllocError>
    requires table { table < length known.old.items }
    requires known { AreKnownOf N.replicas N.tables known.old.items }
    requires prefix { HasTable tables.now table (λ h. IsPrefix (known_in known.old.items table).log h.log) }
    ensures known { AreKnownOf N.replicas N.tables known.new.items }
    ensures ok { OnOk result (HasTable tables.now table (λ h. TakesOver known.old.items table h known.new.items)) }
    ensures err { OnErr result (HasTable tables.now table (λ h. TakesSome known.old.items table h known.new.items)) }
{
    tables.has_named_tables();
    let tree = tables.table(table);
    tree.no_limit_is_passed();
    known[table].see(alloc, tree)?;
    Ok(())
}

impl<N: Naming> Pass<N> {
    /// The pass of a client that knows this of the tables, whose entries of clients all parts of the book count.
    pub fn new(tables: Vec<KnownTable>, up: Vec<bool>, entries: Share<ClientEntries<N>>) -> Pass<N>
        requires known { AreKnownOf N.replicas N.tables tables.items }
        requires ups { length up.items ≡ N.replicas }
        requires parts { entries.parts ≡ N.parts }
        requires some { 0 < N.parts }
        requires counted { entries.amount ≡ all_clients (logs_in tables.items) }
        ensures { result ≡ record { tables = tables.items; up = up.items; gave_up = false } }
    {
        Pass {
            tables,
            up,
            entries,
            gave_up: false,
        }
    }

    /// How many tables it knows: as many as the types name, each at as many replicas as they say.
    pub fn len(&self) -> usize
        ensures len { result ≡ length self.now.tables }
        ensures named { length N.tables ≡ length self.now.tables }
        ensures ups { length self.now.up ≡ N.replicas }
        ensures known { AreKnownOf N.replicas N.tables self.now.tables }
    {
        self.tables.len()
    }

    /// What is known of the table at a place.
    pub fn known(&self, table: usize) -> &KnownTable
        requires { table < length self.now.tables }
        ensures known { result.now ≡ known_at self.now table }
        ensures of { IsKnownOf N.replicas (name_at N.tables table) result.now }
    {
        &self.tables[table]
    }

    /// Whether a replica is up; one that isn't there isn't.
    pub fn is_up(&self, replica: ReplicaId) -> bool
        ensures { result ≡ up_in self.now.up replica }
    {
        if replica == 0 {
            return false;
        }
        let place = usize::from(replica) - 1;
        if place >= self.up.len() {
            return false;
        }
        self.up[place]
    }

    /// Whether the client gave up: an entry of its own is in a log, and no memory was left to note it.
    pub fn gave_up(&self) -> bool
        ensures { result ≡ self.now.gave_up }
    {
        self.gave_up
    }

    /// What the client knows of each table, and which replicas are up, the first one first. Its share of the book is gone.
    pub fn into_known(self) -> (Vec<KnownTable>, Vec<bool>)
        ensures known { result.0.items ≡ self.tables }
        ensures up { result.1.items ≡ self.up }
        ensures of { AreKnownOf N.replicas N.tables self.tables }
        ensures ups { length self.up ≡ N.replicas }
    {
        let Pass { tables, up, .. } = self;
        (tables, up)
    }

    /// Whether the client, which didn't give up, goes on: no log is shorter than its copy, so that each goes on by background work alone, and the table at
    /// a place goes on from what is known of it.
    pub fn meets(&mut self, tables: &mut SharedTables<N>, table: usize) -> bool
        requires table { table < length self.old.tables }
        requires goes { self.old.gave_up ≡ false }
        ensures same { self.new ≡ self.old }
        ensures tables { tables.new ≡ tables.old }
        ensures met { IsTrue result → Meets self.old table tables.old }
        ensures unmet { (result ≡ false) → IsUnmet self.old table tables.old }
    {
        tables.audit(&mut self.entries);
        if !are_prefixes(&self.tables, tables) {
            return false;
        }
        self.tables[table].meets(tables.table(table))
    }

    /// Takes over what lies in the table at a place, and tells whether it did: it doesn't where the client doesn't go on from it.
    ///
    /// At an error no memory was left, now or before: the client may have seen more of that log.
    pub fn see(
        &mut self,
        alloc: Global,
        tables: &mut SharedTables<N>,
        table: usize,
    ) -> Result<bool, AllocError>
        requires table { table < length self.old.tables }
        ensures tables { tables.new ≡ tables.old }
        ensures ok { IfOk result (λ met. MatchBool met
            (SeesTable self.old table tables.old self.new) (self.new ≡ self.old)) }
        ensures unmet { IfOk result (λ met. (met ≡ false) → IsUnmet self.old table tables.old) }
        ensures err { OnErr result (KeepsPass self.old table self.new) }
    {
        if self.gave_up {
            return Err(AllocError);
        }
        if !self.meets(tables, table) {
            return Ok(false);
        }
        let tree = tables.table(table);
        tree.no_limit_is_passed();
        tree.is_sound();
        take_over(alloc, &mut self.tables, tables, table)?;
        Ok(true)
    }
}
