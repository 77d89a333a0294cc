//! A quorum is gathered: the writer of a block notes its part, and other replicas copy it and note it, until enough have.
ghost use Rattle.std.specs.Prelude.{◌≡◌, ◌≢◌, ◌≤◌, ℕ, ◌∷◌, [], length, true, IfOk, IsTrue, OnOk, OnErr};
ghost use Rattle.rmt_events.specs.declared.event.Event.TheVariants as ev;
ghost use Rattle.rmt_events.specs.Whole.{IsWhole};
ghost use Rattle.rmt_events.specs.ClusterChanges.{KeepsTable};
ghost use Rattle.rmt_state.specs.States.{IsNumber};
ghost use Rattle.rmt_cluster.specs.Clusters.{MayStep};
ghost use Rattle.rmt_statement_model.specs.TableStates.{TableState, learned};
ghost use Rattle.rmt_statement_model.specs.QuorumCopies.{is_asked as asked_test, copied, count_live};
ghost use Rattle.rmt_statement_model.specs.Gathered.{gathered_for};
ghost use Rattle.rmt_statement_model.specs.Inserts.{asked_at};
ghost use Rattle.rmt_statement_model.specs.Shows.{HoldsNone, IsIdle, Shows, KeepsUps, fetching_of, ups};
ghost use Rattle.rmt_statement_model.specs.Attempts.{HasPending};
ghost use Rattle.rmt_acts.specs.StatementEvents.{Makes, StopsAfter};
ghost use Rattle.rmt_acts.specs.Inserting.{HasGet, MayCopy, Gathered, TellsNoted, TellsWaiting, SpreadEvents};

use crate::attempt::do_get;
use rmt_cluster::Cluster;
use rmt_events::Event;
use rmt_values::ReplicaId;
use std::alloc::{AllocError, Global};

/// The most replicas of a table.
const MOST_REPLICAS: u8 = 8;

/// Tells that the replicas that are up are those that have a session. It does nothing.
pub(crate) fn live_are_counted(cluster: &Cluster)
    ensures { length cluster.now.table.sessions ≡ count_live (ups cluster.now) }
{
    // What always holds of a cluster and its state is known here.
    cluster.drained_replicas_agree();
    let state = cluster.state();
    state.sound();
    state.tree().no_limit_is_passed();
}

/// Whether a replica is asked for a copy of what another one wrote: a part waits still, and it is another one, up, and may fetch.
fn is_asked(cluster: &Cluster, writer: ReplicaId, other: ReplicaId) -> bool
    requires { 1 ≤ other }
    ensures asked { result ≡ asked_test cluster.now.table.quorum.pending (ups cluster.now) (fetching_of cluster.now) writer other }
    ensures here { IsTrue result → IsNumber other (length cluster.now.replicas) }
{
    // What always holds of a cluster and its state is known here.
    cluster.drained_replicas_agree();
    let state = cluster.state();
    state.sound();
    if state.tree().pending_part().is_none() || other == writer {
        return false;
    }
    match state.replicas().get(usize::from(other) - 1) {
        Some(worker) => worker.is_up() && worker.fetches(),
        None => false,
    }
}

/// Makes one event whose reply isn't asked for.
fn make(alloc: Global, cluster: &mut Cluster, event: Event) -> Result<(), AllocError>
    requires may { MayStep cluster.old event }
    ensures makes { OnOk result (Makes cluster.old (event ∷ []) cluster.new) }
    ensures whole { IsWhole cluster.old }
    ensures err { OnErr result (StopsAfter cluster.old cluster.new) }
    ensures keeps { KeepsTable cluster.old cluster.new }
{
    match cluster.step(alloc, event) {
        Ok(_) => Ok(()),
        Err(error) => Err(error),
    }
}

/// Lets a replica pull the log, do the Get at a place, and note its part.
fn copy_to(
    alloc: Global,
    cluster: &mut Cluster,
    writer: ReplicaId,
    other: ReplicaId,
    entry: u32,
) -> Result<(), AllocError>
    requires here { IsNumber other (length cluster.old.replicas) }
    requires may { MayCopy cluster.old entry writer other }
    requires free { HoldsNone cluster.old }
    ensures shows { OnOk result ((t : TableState) → Shows cluster.old t
        → Shows cluster.new (copied entry other t)) }
    ensures knows { OnOk result (HasPending cluster.new entry writer) }
    ensures events { OnOk result (Makes cluster.old
        (ev.Pull other ∷ ev.Apply other entry ∷ ev.Note other ∷ []) cluster.new) }
    ensures free { OnOk result (HoldsNone cluster.new) }
    ensures err { OnErr result (StopsAfter cluster.old cluster.new) }
    ensures keeps { KeepsUps cluster.old result cluster.new }
{
    let replica = other;
    make(alloc, cluster, Event::Pull { replica })?;
    make(alloc, cluster, Event::Apply { replica, entry })?;
    make(alloc, cluster, Event::Note { replica })?;
    Ok(())
}

/// Lets the writer of a part note it, and then other replicas copy it, one after the other, until its quorum is met.
fn gather(
    alloc: Global,
    cluster: &mut Cluster,
    replica: ReplicaId,
    entry: u32,
) -> Result<(), AllocError>
    requires here { IsNumber replica (length cluster.old.replicas) }
    requires idle { IsIdle cluster.old replica }
    requires knows { HasPending cluster.old entry replica }
    ensures gathers { OnOk result (Gathered cluster.old replica entry 8 cluster.new) }
    ensures err { OnErr result (StopsAfter cluster.old cluster.new) }
    ensures keeps { KeepsUps cluster.old result cluster.new }
{
    make(alloc, cluster, Event::Note { replica })?;
    let mut other = 0;
    'others: while other < MOST_REPLICAS {
        other += 1;
        if is_asked(cluster, replica, other) {
            copy_to(alloc, cluster, replica, other, entry)?;
        }
    }
    Ok(())
}

/// How many replicas have noted the part that waits for its quorum, where one waits.
fn count_noted(cluster: &Cluster) -> Option<u32>
    ensures { TellsNoted cluster.now.table.quorum.pending result }
{
    let quorum = cluster.state().tree().quorum();
    match quorum.pending {
        Some(_) => Some(quorum.have),
        None => None,
    }
}

/// Lets a replica do the Get of its own block, and gathers its quorum where one is asked for; tells how many have noted the part
/// where it isn't met.
pub(crate) fn spread(
    alloc: Global,
    cluster: &mut Cluster,
    replica: ReplicaId,
    entry: u32,
    need: u32,
) -> Result<Option<u32>, AllocError>
    requires here { IsNumber replica (length cluster.old.replicas) }
    requires there { HasGet cluster.old entry (asked_at replica need) }
    requires idle { IsIdle cluster.old replica }
    ensures shows { IfOk result (λ _. (t : TableState) → Shows cluster.old t → Shows cluster.new
        (gathered_for need (ups cluster.old) replica entry (record t { known = learned t.known replica entry }))) }
    ensures tells { IfOk result (TellsWaiting need cluster.new) }
    ensures idle { IfOk result (λ _. IsIdle cluster.new replica) }
    ensures events { IfOk result (λ _. SpreadEvents cluster.old (asked_at replica need) entry cluster.new) }
    ensures err { OnErr result (StopsAfter cluster.old cluster.new) }
    ensures keeps { KeepsUps cluster.old result cluster.new }
{
    // What always holds of a cluster is known here.
    cluster.drained_replicas_agree();
    do_get(alloc, cluster, replica, entry)?;
    if need < 2 {
        return Ok(None);
    }
    gather(alloc, cluster, replica, entry)?;
    Ok(count_noted(cluster))
}
