ghost use Rattle.std.specs.Prelude.{◌≡◌, ◌↔◌, ◌≤◌, [], length, IfOk, IsTrue};
ghost use Rattle.std.specs.Arc.{arc_value};
ghost use Rattle.rmt_model.specs.Words.{Has};
ghost use Rattle.rmt_model.specs.Lawful.{mutation_count};
ghost use Rattle.rmt_model.specs.EntryLimits.{client_count};
ghost use Rattle.rmt_tree.specs.Trees.{empty_tree};
ghost use Rattle.rmt_tree.specs.Ops.{after_all};
ghost use Rattle.rmt_events.specs.Starts.{new_table};
ghost use Rattle.rmt_table_model.specs.Nodes.{new_ops as ops_of_new};
ghost use Rattle.rmt_table.specs.TableTrees.{table_at, session_at, IsReplica};

mod abandon;
mod allocate;
mod commit;
mod drop;
mod limits;
mod locks;
mod merge;
mod mutate;
mod mutation;
mod pull;
mod quorum;
mod sessions;

use crate::entry_log::EntryLog;
use crate::layout::new_ops;
use crate::ops::multi;
use rmt_inserts::Window;
use rmt_names::PartitionId;
use rmt_partitions::Partitions;
use rmt_quorum::QuorumState;
use rmt_tree::Tree;
use rmt_values::{ReplicaId, Schema};
use std::alloc::{AllocError, Global};
use std::marker::Model;
use std::sync::Arc;

/// A table's coordination tree and its log. Contracts see the log, what the tree holds, and the tree itself.
#[derive(Drop)]
pub struct TableTree {
    schema: Arc<Schema, Global>,
    log: EntryLog,
    partitions: Partitions,
    /// The session of each replica that has one.
    sessions: Vec<Option<u64>>,
    /// The length of the log that each replica has pulled.
    pulled: Vec<u32>,
    /// The part that waits for its quorum, and the last one whose quorum was met.
    quorum: QuorumState,
    /// How many values the accepted blocks have.
    values: u64,
    /// How many entries of clients the log has.
    clients: u32,
    /// How many entries of workers the log has.
    workers: u32,
    /// How many mutations the log has.
    mutations: u32,
    /// The ids of the blocks accepted last, as the tree has them too.
    window: Window,
    tree: Tree,
}

impl Model for TableTree {
    ghost use Rattle.std.specs.Arc.{arc_value};
    ghost use Rattle.rmt_history.specs.Copies.{entries};
    ghost use Rattle.rmt_table_model.specs.Held.{Held};
    ghost use Rattle.rmt_table.specs.TableTrees.{IsTableTree};
    ghost use Rattle.std.specs.Coded.{codes};
    ghost use Rattle.rmt_values.specs.contracts.checked.Checked as filter;
    ghost use Rattle.rmt_tree.specs.Trees.{tree_code};

    ghost Value = { Held };

    ghost coded = { Prim.hlevel (codes, filter.the_row.coded, tree_code) };

    ghost view = { λ t. record { schema = arc_value t.schema; row = t.log.row; log = entries t.log.tokens; next = t.partitions.numbers; sessions = t.sessions.items; pulled = t.pulled.items; quorum = t.quorum; values = t.values; tree = t.tree } };

    ghost invariant = { λ t. IsTableTree (record { schema = arc_value t.schema; row = t.log.row; log = entries t.log.tokens; next = t.partitions.numbers; sessions = t.sessions.items; pulled = t.pulled.items; quorum = t.quorum; values = t.values; tree = t.tree }) t.log.tokens (record { clients = t.clients; workers = t.workers; mutations = t.mutations; blocks = t.window.count; window = t.window.placed }) };
}

impl TableTree {
    /// Makes a table of 1 to 8 replicas, none of which has a session. At an error no memory was left.
    pub fn new(
        alloc: Global,
        schema: Arc<Schema, Global>,
        replicas: u8,
    ) -> Result<TableTree, AllocError>
        requires some { 1 ≤ replicas }
        requires few { replicas ≤ 8 }
        ensures table { IfOk result (λ made. table_at made ≡ new_table (arc_value schema) []) }
        ensures replicas { IfOk result (λ made. length made.sessions ≡ replicas) }
        ensures row { IfOk result (λ made. length made.row ≡ 65536) }
        ensures ops { IfOk result (λ made. made.tree ≡ after_all empty_tree (ops_of_new replicas)) }
    {
        let log = EntryLog::new(alloc)?;
        let mut tree = Tree::new(alloc);
        let ops = new_ops(alloc, replicas)?;
        multi(&mut tree, &ops)?;
        let count = usize::from(replicas);
        let mut sessions = Vec::new(alloc);
        sessions.resize(count, None)?;
        let mut pulled = Vec::new(alloc);
        pulled.resize(count, 0)?;
        Ok(TableTree {
            schema,
            log,
            partitions: Partitions::new(alloc),
            sessions,
            pulled,
            quorum: QuorumState::new(),
            values: 0,
            clients: 0,
            workers: 0,
            mutations: 0,
            window: Window::new(alloc),
            tree,
        })
    }

    /// Its schema.
    pub fn schema(&self) -> &Arc<Schema, Global>
        ensures { arc_value result.now ≡ self.now.schema }
    {
        &self.schema
    }

    /// How many entries the log has.
    pub fn log_len(&self) -> u32
        ensures { result ≡ length self.now.log }
    {
        self.log.len() as u32
    }

    /// How many mutations the log has. It takes no memory.
    pub fn mutations(&self) -> u32
        ensures { result ≡ mutation_count self.now.log }
    {
        self.mutations
    }

    /// How many entries of clients the log has. It takes no memory.
    pub fn client_entries(&self) -> u32
        ensures { result ≡ client_count self.now.log }
    {
        self.clients
    }

    /// How many values the accepted blocks have. It takes no memory.
    pub fn values(&self) -> u64
        ensures { result ≡ self.now.values }
    {
        self.values
    }

    /// The partitions that exist, in order, each with the block number that it gives next. It takes no memory.
    pub fn next_numbers(&self) -> &[(PartitionId, u32)]
        ensures { result.now ≡ self.now.next }
    {
        self.partitions.as_slice()
    }

    /// What is kept of quorum inserts. It takes no memory.
    pub fn quorum_state(&self) -> &QuorumState
        ensures { result.now ≡ self.now.quorum }
    {
        &self.quorum
    }

    /// The session of a replica; `None` where it has none.
    fn session(&self, replica: ReplicaId) -> Option<u64>
        requires here { IsReplica self.now replica }
        ensures { result ≡ session_at self.now replica }
    {
        self.sessions[usize::from(replica) - 1]
    }

    /// Whether the replica has a session. It takes no memory.
    pub fn is_open(&self, replica: ReplicaId) -> bool
        requires here { IsReplica self.now replica }
        ensures { IsTrue result ↔ Has (table_at self.now).sessions replica }
    {
        self.sessions[usize::from(replica) - 1].is_some()
    }
}
