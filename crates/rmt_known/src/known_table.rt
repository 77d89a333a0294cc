ghost use Rattle.std.specs.Prelude.{◌≡◌, length, IfOk, OnOk, OnErr};
ghost use Rattle.std.specs.Arc.{arc_value};
ghost use Rattle.rmt_model.specs.Quorum.{quorum_after_note};
ghost use Rattle.rmt_statement_model.specs.TableStates.{with_switch};
ghost use Rattle.rmt_clients.specs.Clients.{KnowsTable};
ghost use Rattle.rmt_known.specs.KnownTables.{IsReplicaIn, KeepsCopy, client_of, copy_in, known_state, new_known};

mod places;
mod table;

use crate::replicas::{fetches_of, new_marks};
use rmt_history::LogCopy;
use rmt_names::PartitionId;
use rmt_queue::Queue;
use rmt_quorum::QuorumState;
use rmt_values::{ReplicaId, Schema};
use std::alloc::{AllocError, Global};
use std::marker::Model;
use std::sync::Arc;

/// What one client knows of a table: a copy of its log, the next block numbers as the client's own calls left them, the quorum as
/// last seen, and for each replica whether it may fetch, and which places of the log are known there.
#[derive(Drop)]
pub struct KnownTable {
    copy: LogCopy,
    next: Vec<(PartitionId, u32)>,
    quorum: QuorumState,
    /// Whether each replica may fetch, the first one first.
    fetching: Vec<bool>,
    /// The places of the log that are known at each replica, the first one first.
    marks: Vec<Queue>,
}

impl Model for KnownTable {
    ghost use Rattle.rmt_known.specs.KnownTables.{Known, IsKnown};
    ghost use Rattle.std.specs.Coded.{codes};
    ghost use Rattle.rmt_values.specs.contracts.checked.Checked as filter;

    ghost Value = { Known };

    ghost coded = { Prim.hlevel (codes, filter.the_row.coded) };

    ghost view = { λ k. record { schema = k.copy.schema; log = k.copy.log; cells = k.copy.cells; next = k.next.items; quorum = k.quorum; fetching = k.fetching.items; marks = k.marks.items } };

    ghost invariant = { λ k. IsKnown k.fetching.items k.marks.items k.quorum };
}

impl KnownTable {
    /// Nothing is known of a table with so many replicas, each of which may fetch. At an error no memory was left.
    pub fn new(
        alloc: Global,
        schema: Arc<Schema, Global>,
        replicas: u8,
    ) -> Result<KnownTable, AllocError>
        ensures { IfOk result (λ known. known ≡ new_known (arc_value schema) replicas) }
    {
        let count = usize::from(replicas);
        let mut fetching = Vec::new(alloc);
        fetching.resize(count, true)?;
        let marks = new_marks(alloc, count)?;
        Ok(KnownTable {
            copy: LogCopy::new(alloc, schema),
            next: Vec::new(alloc),
            quorum: QuorumState::new(),
            fetching,
            marks,
        })
    }

    /// The copy of the log.
    pub fn copy(&self) -> &LogCopy
        ensures { result.now ≡ copy_in self.now }
    {
        &self.copy
    }

    /// The quorum as last seen.
    pub fn quorum(&self) -> &QuorumState
        ensures { result.now ≡ self.now.quorum }
    {
        &self.quorum
    }

    /// How many replicas the table has.
    pub fn replicas(&self) -> usize
        ensures fetching { result ≡ length self.now.fetching }
        ensures marks { result ≡ length self.now.marks }
    {
        self.marks.len()
    }

    /// Whether a replica may fetch; one that isn't there may.
    pub fn may_fetch(&self, replica: ReplicaId) -> bool
        ensures { result ≡ (client_of self.now).fetching replica }
    {
        fetches_of(&self.fetching, replica)
    }

    /// Notes whether a replica may fetch from now on.
    pub fn set_fetches(&mut self, replica: ReplicaId, allowed: bool)
        requires { IsReplicaIn self.old replica }
        ensures switches { KnowsTable (client_of self.new) (with_switch (known_state self.old) replica allowed) }
        ensures keeps { KeepsCopy self.old self.new }
    {
        self.fetching[usize::from(replica) - 1] = allowed;
    }

    /// Notes that a replica has noted the part that waits for its quorum. At an error no memory was left.
    pub fn note(&mut self, alloc: Global, replica: ReplicaId) -> Result<(), AllocError>
        ensures ok { OnOk result (self.new ≡ record self.old { quorum = quorum_after_note replica self.old.quorum }) }
        ensures err { OnErr result (self.new ≡ self.old) }
    {
        let noted = self.quorum.noted_with(alloc, replica)?;
        self.quorum.note(replica, noted);
        Ok(())
    }
}
