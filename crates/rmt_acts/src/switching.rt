//! The switch of a replica's fetches.
ghost use Rattle.std.specs.Prelude.{◌≡◌, ◌∷◌, [], length, OnOk, OnErr};
ghost use Rattle.rmt_state.specs.States.{IsNumber};
ghost use Rattle.rmt_events.specs.declared.event.Event.TheVariants as ev;
ghost use Rattle.rmt_statement_model.specs.TableStates.{TableState, with_switch};
ghost use Rattle.rmt_statement_model.specs.Shows.{IsIdle, KeepsUps, Shows, fetching_of};
ghost use Rattle.rmt_acts.specs.StatementEvents.{Makes};

use rmt_cluster::Cluster;
use rmt_events::Event;
use rmt_values::ReplicaId;
use std::alloc::{AllocError, Global};

/// Lets a replica fetch parts from now on, or stops its fetches: what it has stays, and its own blocks are its own still. At an
/// error no memory was left, and nothing changed.
///
/// ClickHouse documentation, SYSTEM: "STOP FETCHES" and "START FETCHES".
pub fn switch_fetches(
    alloc: Global,
    cluster: &mut Cluster,
    replica: ReplicaId,
    allowed: bool,
) -> Result<(), AllocError>
    requires here { IsNumber replica (length cluster.old.replicas) }
    requires idle { IsIdle cluster.old replica }
    ensures events { OnOk result (Makes cluster.old (ev.Fetches replica allowed ∷ []) cluster.new) }
    ensures err { OnErr result (cluster.new ≡ cluster.old) }
    ensures shows { OnOk result ((t : TableState) → Shows cluster.old t
        → Shows cluster.new (with_switch t replica allowed)) }
    ensures idle { OnOk result (IsIdle cluster.new replica) }
    ensures keeps { KeepsUps cluster.old result cluster.new }
{
    match cluster.step(alloc, Event::Fetches { replica, allowed }) {
        Ok(_) => Ok(()),
        Err(error) => Err(error),
    }
}

/// Whether a replica may fetch parts: its last switch, where there was one, allowed it.
pub fn may_fetch(cluster: &Cluster, replica: ReplicaId) -> bool
    requires { IsNumber replica (length cluster.now.replicas) }
    ensures { result ≡ fetching_of cluster.now replica }
{
    // What always holds of a cluster and its state is known here.
    cluster.drained_replicas_agree();
    let state = cluster.state();
    state.sound();
    state.replicas()[usize::from(replica) - 1].fetches()
}
