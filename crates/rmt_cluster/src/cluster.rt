ghost use Rattle.std.specs.Prelude.{◌≡◌, ◌≤◌, ℕ, IfOk, OnErr, length, map};
ghost use Rattle.std.specs.Arc.{arc_value};
ghost use Rattle.rmt_values.specs.Order.{SameBag};
ghost use Rattle.rmt_model.specs.Words.{Has};
ghost use Rattle.rmt_model.specs.Content.{rows};
ghost use Rattle.rmt_events.specs.Views.{Replica};
ghost use Rattle.rmt_events.specs.ReplicaCalls.{IsDrained};
ghost use Rattle.rmt_events.specs.Clusters.{accepted, rows_at};
ghost use Rattle.rmt_events.specs.Shown.{names_and_rows, read_rows};
ghost use Rattle.rmt_events.specs.Steps.{Step};
ghost use Rattle.rmt_events.specs.Whole.{HasReplica, IsWhole};
ghost use Rattle.rmt_events.specs.ClusterChanges.{KeepsTable};
ghost use Rattle.rmt_table.specs.TableTrees.{table_at};
ghost use Rattle.rmt_replica.specs.SeenReplica.{shown};
ghost use Rattle.rmt_cluster.specs.NewClusters.{IsNewCluster};
ghost use Rattle.rmt_state.specs.States.{IsNumber};
ghost use Rattle.rmt_cluster.specs.Clusters.{MayStep, Stops};

mod reading;
mod running;
mod syncing;

use crate::acting::act;
use crate::attempts::Attempts;
use rmt_event_log::EventLog;
use rmt_events::{Event, Reply};
use rmt_state::State;
use rmt_values::Schema;
use std::alloc::{AllocError, Global};
use std::marker::Model;
use std::sync::Arc;

/// A table with its replicas, the inserts that are open, and the events that made it so, each with its reply. It is whole at
/// every moment: contracts see it as the events do.
#[derive(Drop)]
pub struct Cluster {
    state: State,
    attempts: Attempts,
    events: EventLog,
}

impl Model for Cluster {
    ghost use Rattle.std.specs.Coded.{codes};
    ghost use Rattle.rmt_values.specs.contracts.checked.Checked as filter;
    ghost use Rattle.rmt_tree.specs.Trees.{tree_code};
    ghost use Rattle.rmt_events.specs.Clusters.{Cluster as ClusterView};
    ghost use Rattle.rmt_state.specs.States.{cluster_of};
    ghost use Rattle.rmt_cluster.specs.Clusters.{IsCluster};

    ghost Value = { ClusterView };

    ghost coded = { Prim.hlevel (codes, filter.the_row.coded, tree_code) };

    ghost view = { λ c. cluster_of c.state c.attempts.made c.attempts.open_ones c.events.events };

    ghost invariant = { λ c. IsCluster c.state c.attempts c.events.events };
}

impl Cluster {
    /// A new table of 1 to 8 replicas that have nothing; those that are up have a session. At an error no memory was left.
    pub fn new(
        alloc: Global,
        schema: Arc<Schema, Global>,
        up: &[bool],
    ) -> Result<Cluster, AllocError>
        requires some { 1 ≤ length up.now }
        requires few { length up.now ≤ 8 }
        ensures is_new { IfOk result (IsNewCluster (arc_value schema) up.now) }
        ensures replicas { IfOk result (λ c. length c.replicas ≡ length up.now) }
    {
        Ok(Cluster {
            state: State::new(alloc, schema, up)?,
            attempts: Attempts::new(alloc),
            events: EventLog::new(alloc),
        })
    }

    /// The table and its replicas.
    pub fn state(&self) -> &State
        ensures table { table_at result.now.tree ≡ self.now.table }
        ensures replicas { map shown result.now.replicas ≡ self.now.replicas }
    {
        &self.state
    }

    /// The events so far, each with its reply.
    pub fn events(&self) -> &EventLog
        ensures { result.now.events ≡ self.now.events }
    {
        &self.events
    }

    /// What holds of every cluster, whatever its events were: replicas that are drained to one length have parts of equal names
    /// and equal rows; and what is read of a drained replica is the plain rows of the accepted blocks. It does nothing.
    pub fn drained_replicas_agree(&self)
        ensures whole { IsWhole self.now }
        ensures agree { (x y : Replica) → Has self.now.replicas x → Has self.now.replicas y → IsDrained x → IsDrained y
            → length x.log ≡ length y.log → names_and_rows x.parts ≡ names_and_rows y.parts }
        ensures reads { (x : Replica) → Has self.now.replicas x → IsDrained x
            → SameBag (read_rows x.log x.parts) (rows x.log (rows_at (accepted self.now))) }
    {
        // What the type keeps is known where a field is read.
        let _events = &self.events;
    }

    /// The replicas are numbered from 1 up to their count. It does nothing.
    pub fn replicas_are_numbered(&self)
        ensures { (k : ℕ) → IsNumber k (length self.now.replicas) → HasReplica self.now.replicas k }
    {
        self.state.sound();
    }

    /// Does one event, and stores it with its reply. At an error no memory was left: no entry was added to the log, and the
    /// event isn't stored.
    pub fn step(&mut self, alloc: Global, event: Event) -> Result<Reply, AllocError>
        requires may { MayStep self.old event }
        ensures ok { IfOk result (λ reply. Step self.old event reply self.new) }
        ensures err { OnErr result (Stops self.old event self.new) }
        ensures log { OnErr result (self.new.table.log ≡ self.old.table.log) }
        ensures keeps { KeepsTable self.old self.new }
        ensures whole { IsWhole self.old }
    {
        self.events.reserve()?;
        self.state.sound();
        let reply = act(alloc, &mut self.state, &mut self.attempts, &event)?;
        let stored = reply;
        self.events.push(event, stored);
        Ok(reply)
    }
}
