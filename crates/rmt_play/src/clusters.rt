//! The clusters of a script's tables, whose acts are done one after the other.
ghost use Rattle.std.specs.Prelude.{◌≡◌, ◌≤◌, ◌<◌, ◌∷◌, ◌++◌, [], length, IfOk, OnErr, OnOk};
ghost use Rattle.rmt_model.specs.Words.{Each};
ghost use Rattle.rmt_state.specs.States.{IsNumber};
ghost use Rattle.rmt_play.specs.Shown.{Agrees};
ghost use Rattle.rmt_play.specs.PlayerSteps.{clusters_seen, IsNewTable, AddsTable, TurnsTable, TurnsEach};

use crate::act::act_at;
use crate::engine::Engine;
use crate::turns::run_in;
use rmt_acts::{kill, restart};
use rmt_cluster::Cluster;
use rmt_list::List;
use rmt_reply::Line;
use rmt_statements::Act;
use rmt_values::{ReplicaId, Schema};
use std::alloc::{AllocError, Global};
use std::marker::Model;
use std::sync::Arc;

/// The clusters of the tables, in the order in which they were created.
#[derive(Drop)]
pub(crate) struct Clusters {
    all: Vec<Cluster>,
}

impl Model for Clusters {
    ghost use Rattle.std.specs.Prelude.{List as Clusters};
    ghost use Rattle.std.specs.Coded.{codes};
    ghost use Rattle.rmt_events.specs.Clusters.{Cluster as ClusterView};
    ghost use Rattle.rmt_values.specs.contracts.checked.Checked as filter;
    ghost use Rattle.rmt_tree.specs.Trees.{tree_code};

    ghost Value = { Clusters ClusterView };

    ghost coded = { Prim.hlevel (codes, filter.the_row.coded, tree_code) };

    ghost view = { λ c. c.all.items };
}

/// The cluster of a new table at so many replicas, of which these are up.
fn new_cluster(
    alloc: Global,
    schema: Schema,
    replicas: u8,
    up: &[bool],
) -> Result<Cluster, AllocError>
    requires some { 0 < replicas }
    requires few { replicas ≤ 8 }
    requires eight { length up.now ≡ 8 }
    ensures { IfOk result (IsNewTable schema replicas up.now) }
{
    let schema = Arc::new(alloc, schema)?;
    Cluster::new(alloc, schema, up.split_at(usize::from(replicas)).0)
}

/// Begins a session of a replica in a cluster, or ends the one that it has. At an error no memory was left, and the replica
/// may be down.
fn turn(
    alloc: Global,
    cluster: &mut Cluster,
    replica: ReplicaId,
    is_up: bool,
) -> Result<(), AllocError>
    requires { IsNumber replica (length cluster.old.replicas) }
    ensures { OnOk result (TurnsTable clusters_seen replica is_up cluster.old cluster.new) }
{
    if is_up {
        restart(alloc, cluster, replica)?;
    } else {
        kill(alloc, cluster, replica)?;
    }
    Ok(())
}

/// Ends a replica's session in each cluster, or begins another one. At an error no memory was left, and some are done.
fn turn_each(
    alloc: Global,
    clusters: &mut [Cluster],
    replica: ReplicaId,
    is_up: bool,
) -> Result<(), AllocError>
    requires { Each (λ c. IsNumber replica (length c.replicas)) clusters.old }
    ensures { OnOk result (TurnsEach clusters_seen replica is_up clusters.old clusters.new) }
{
    'clusters: for i in 0..clusters.len() {
        turn(alloc, &mut clusters[i], replica, is_up)?;
    }
    Ok(())
}

/// These clusters. At an error no memory was left.
fn list_of(alloc: Global, all: Vec<Cluster>) -> Result<List<Cluster>, AllocError>
    ensures clusters { IfOk result (λ clusters. clusters ≡ all.items) }
    ensures agree { IfOk result (Each Agrees) }
{
    let mut clusters = Vec::with_capacity(alloc, all.len())?;
    'clusters: for cluster in all {
        // What always holds of a cluster is known here.
        cluster.drained_replicas_agree();
        clusters.push(cluster)?;
    }
    Ok(List::new(clusters))
}

impl Clusters {
    /// None.
    pub(crate) fn new(alloc: Global) -> Clusters
        ensures { result ≡ [] }
    {
        Clusters {
            all: Vec::new(alloc),
        }
    }

    /// Adds that of a new table at so many replicas, of which these are up. At an error no memory was left.
    pub(crate) fn add(
        &mut self,
        alloc: Global,
        schema: Schema,
        replicas: u8,
        up: &[bool],
    ) -> Result<(), AllocError>
        requires some { 0 < replicas }
        requires few { replicas ≤ 8 }
        requires eight { length up.now ≡ 8 }
        ensures adds { OnOk result (AddsTable schema replicas up.now self.old self.new) }
        ensures err { OnErr result (self.new ≡ self.old) }
    {
        self.all.reserve(1)?;
        let cluster = new_cluster(alloc, schema, replicas, up)?;
        self.all.push(cluster)?;
        Ok(())
    }

    /// All of them, in their order. At an error no memory was left.
    pub(crate) fn into_list(self, alloc: Global) -> Result<List<Cluster>, AllocError>
        ensures clusters { IfOk result (λ clusters. clusters ≡ self) }
        ensures agree { IfOk result (Each Agrees) }
    {
        list_of(alloc, self.all)
    }
}

impl Engine for Clusters {
    ghost use Rattle.rmt_play.specs.PlayerSteps.{clusters_seen};

    ghost sights = { clusters_seen };

    ghost tables = { λ all. all };

    fn act(
        &mut self,
        alloc: Global,
        place: usize,
        replica: ReplicaId,
        is_up: bool,
        act: &Act,
    ) -> Result<Line, AllocError> {
        act_at(alloc, &mut self.all[place], replica, is_up, act)
    }

    fn work(
        &mut self,
        alloc: Global,
        place: usize,
        turns: u32,
        seed: u32,
    ) -> Result<Line, AllocError> {
        run_in(alloc, &mut self.all[place], turns, seed)
    }

    fn turn(&mut self, alloc: Global, replica: ReplicaId, is_up: bool) -> Result<(), AllocError> {
        turn_each(alloc, &mut self.all, replica, is_up)
    }

    fn answered(&mut self) {}

    fn clear(&mut self) {
        self.all.clear();
    }
}
