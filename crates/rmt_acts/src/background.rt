//! Background work, and replicas whose sessions end and begin.
ghost use Rattle.std.specs.Prelude.{◌≡◌, ◌∷◌, [], ◌<◌, ◌^◌, ℕ, cond, nat_eq, true, false, length, OnOk, OnErr};
ghost use Rattle.rmt_events.specs.ClusterChanges.{KeepsTable};
ghost use Rattle.rmt_state.specs.States.{IsNumber};
ghost use Rattle.rmt_events.specs.declared.event.Event.TheVariants as ev;
ghost use Rattle.rmt_cluster.specs.Clusters.{Stops};
ghost use Rattle.rmt_cluster.specs.Runs.{RunsAll, RunsSome};
ghost use Rattle.rmt_statement_model.specs.TableStates.{TableState};
ghost use Rattle.rmt_statement_model.specs.BackgroundWork.{Works};
ghost use Rattle.rmt_statement_model.specs.Shows.{HoldsNone, IsIdle, Shows, Leads, ups, KeepsUps};
ghost use Rattle.rmt_acts.specs.StatementEvents.{Makes, StopsAfter};

use rmt_cluster::Cluster;
use rmt_events::{Event, Reply, StepRefused};
use rmt_values::ReplicaId;
use std::alloc::{AllocError, Global};

/// Makes so many background events, drawn from a seed. At an error no memory was left, and some of them were made.
pub fn run_turns(
    alloc: Global,
    cluster: &mut Cluster,
    seed: u32,
    turns: u32,
) -> Result<(), AllocError>
    requires seed { seed < 2 ^ 31 }
    requires free { HoldsNone cluster.old }
    ensures runs { OnOk result (RunsAll cluster.old seed turns cluster.new) }
    ensures works { OnOk result ((t : TableState) → Shows cluster.old t → Leads cluster.new (Works (ups cluster.old) turns t)) }
    ensures free { OnOk result (HoldsNone cluster.new) }
    ensures err { OnErr result (RunsSome cluster.old seed turns cluster.new) }
    ensures keeps { KeepsUps cluster.old result cluster.new }
{
    // What always holds of a cluster is known here.
    cluster.drained_replicas_agree();
    cluster.run(alloc, seed, turns)
}

/// Ends a replica's session and opens another one, so that the replica looks at each entry of its copy again. At an error no
/// memory was left, and the replica may be down.
pub fn restart_replica(
    alloc: Global,
    cluster: &mut Cluster,
    replica: ReplicaId,
) -> Result<(), AllocError>
    requires here { IsNumber replica (length cluster.old.replicas) }
    requires idle { IsIdle cluster.old replica }
    ensures events { OnOk result
        (Makes cluster.old (ev.Kill replica ∷ ev.Restart replica ∷ []) cluster.new) }
    ensures err { OnErr result (StopsAfter cluster.old cluster.new) }
    ensures restarts { OnOk result ((t : TableState) → Shows cluster.old t → Shows cluster.new t) }
    ensures idle { OnOk result (IsIdle cluster.new replica) }
    ensures keeps { KeepsUps cluster.old result cluster.new }
{
    let killed = cluster.step(alloc, Event::Kill { replica })?;
    if let Reply::Refused(StepRefused::Down) = killed {
        unreachable!()
    }
    let _restarted = cluster.step(alloc, Event::Restart { replica })?;
    Ok(())
}

/// Ends a replica's session: the replica is down. What it has stays. At an error no memory was left, and nothing changed.
pub fn kill(alloc: Global, cluster: &mut Cluster, replica: ReplicaId) -> Result<(), AllocError>
    requires here { IsNumber replica (length cluster.old.replicas) }
    ensures events { OnOk result (Makes cluster.old (ev.Kill replica ∷ []) cluster.new) }
    ensures err { OnErr result (cluster.new ≡ cluster.old) }
    ensures shows { OnOk result ((t : TableState) → Shows cluster.old t → Shows cluster.new t) }
    ensures up { OnOk result ((k : ℕ) → ups cluster.new k ≡ cond (nat_eq replica k) false (ups cluster.old k)) }
    ensures free { HoldsNone cluster.old → OnOk result (HoldsNone cluster.new) }
    ensures keeps { KeepsTable cluster.old cluster.new }
{
    let killed = cluster.step(alloc, Event::Kill { replica })?;
    if let Reply::Refused(StepRefused::Down) = killed {
        unreachable!()
    }
    Ok(())
}

/// Begins a session of a replica: the replica is up, and looks at each entry of its copy again. At an error no memory was left,
/// and the replica may be down.
pub fn restart(alloc: Global, cluster: &mut Cluster, replica: ReplicaId) -> Result<(), AllocError>
    requires here { IsNumber replica (length cluster.old.replicas) }
    ensures events { OnOk result (Makes cluster.old (ev.Restart replica ∷ []) cluster.new) }
    ensures err { OnErr result (Stops cluster.old (ev.Restart replica) cluster.new) }
    ensures shows { OnOk result ((t : TableState) → Shows cluster.old t → Shows cluster.new t) }
    ensures up { OnOk result ((k : ℕ) → ups cluster.new k ≡ cond (nat_eq replica k) true (ups cluster.old k)) }
    ensures free { HoldsNone cluster.old → OnOk result (HoldsNone cluster.new) }
    ensures keeps { KeepsTable cluster.old cluster.new }
{
    let restarted = cluster.step(alloc, Event::Restart { replica })?;
    if let Reply::Refused(StepRefused::Down) = restarted {
        unreachable!()
    }
    Ok(())
}
