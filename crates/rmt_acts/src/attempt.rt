//! The events that insert one block.
ghost use Rattle.std.specs.Prelude.{◌≡◌, ◌≢◌, ℕ, ◌∷◌, [], length, true, IfOk, OnOk, OnErr};
ghost use Rattle.std.specs.List.{All};
ghost use Rattle.rmt_values.specs.Rows.{fits};
ghost use Rattle.rmt_events.specs.Clusters.{without_kinds};
ghost use Rattle.rmt_events.specs.Whole.{IsWhole};
ghost use Rattle.rmt_state.specs.States.{IsNumber};
ghost use Rattle.rmt_statement_model.specs.TableStates.{TableState, learned};
ghost use Rattle.rmt_statement_model.specs.Shows.{HoldsNone, IsIdle, Shows, Leads, KeepsUps, ups};
ghost use Rattle.rmt_statement_model.specs.Inserts.{asked_at};
ghost use Rattle.rmt_statement_model.specs.Attempts.{IsAllocateReply, IsCommitReply};
ghost use Rattle.rmt_events.specs.declared.event.Event.TheVariants as ev;
ghost use Rattle.rmt_acts.specs.StatementEvents.{Makes, TriesBlock, StopsAfter};
ghost use Rattle.rmt_acts.specs.Inserting.{IsBegun, Begins, HasNone, IsUnbegun, IsCommitted, Commits, HasAttempt, IsUpWith, HasGet, BlockEvents, ComesTo};

use crate::begun::Begun;
use crate::committed::Committed;
use crate::gathering::{live_are_counted, spread};
use crate::outcome::Outcome;
use rmt_block::Block;
use rmt_cluster::Cluster;
use rmt_events::{Event, Reply, StepRefused};
use rmt_names::block_name;
use rmt_reply::{Piece, Refusal};
use rmt_values::ReplicaId;
use std::alloc::{AllocError, Global};
use std::sync::Arc;

/// How the insert of a block begins whose Allocate has this reply.
fn begun_by(reply: &Reply) -> Begun
    requires { IsAllocateReply reply.now }
    ensures { IsBegun reply.now result }
{
    match reply {
        Reply::Attempt { attempt, number } => Begun::Attempt {
            attempt: *attempt,
            number: *number,
        },
        Reply::Refused(StepRefused::TooFewLive { live, need }) => Begun::TooFewLive {
            live: *live,
            need: *need,
        },
        Reply::Refused(StepRefused::QuorumPending(part)) => Begun::QuorumPending(*part),
        Reply::Refused(StepRefused::Duplicate(part)) => Begun::Duplicate(*part),
        Reply::Refused(StepRefused::LimitReached { limit, value }) => Begun::Full {
            limit: *limit,
            value: *value,
        },
        _ => unreachable!(),
    }
}

/// Lets a block have a number at a replica, that is to be at so many.
fn begin(
    alloc: Global,
    cluster: &mut Cluster,
    replica: ReplicaId,
    block: Block,
    need: u32,
) -> Result<Begun, AllocError>
    requires here { IsNumber replica (length cluster.old.replicas) }
    requires idle { IsIdle cluster.old replica }
    requires need { need ≢ 1 }
    requires fit { All (λ row. fits cluster.old.table.schema.columns row ≡ true) block.rows }
    ensures begins { IfOk result (λ begun.
        Begins cluster.old (asked_at replica need) (without_kinds block) begun cluster.new) }
    ensures whole { IfOk result (λ _. IsWhole cluster.new) }
    ensures events { IfOk result (λ _.
        TriesBlock cluster.old (asked_at replica need) cluster.new) }
    ensures err { OnErr result (StopsAfter cluster.old cluster.new) }
    ensures keeps { KeepsUps cluster.old result cluster.new }
{
    cluster.replicas_are_numbered();
    live_are_counted(cluster);
    let block = Arc::new(alloc, block)?;
    let reply = cluster.step(
        alloc,
        Event::Allocate {
            replica,
            block,
            need,
        },
    )?;
    if let Reply::Refused(StepRefused::Down) = reply {
        unreachable!()
    }
    Ok(begun_by(&reply))
}

/// What becomes of a block that has no number.
fn unbegun(begun: Begun) -> Outcome
    requires { HasNone begun }
    ensures { IsUnbegun begun result }
{
    match begun {
        Begun::TooFewLive { live, need } => Outcome::Refused(Refusal::TooFewLive { live, need }),
        Begun::QuorumPending(part) => Outcome::Refused(Refusal::QuorumPending(part)),
        Begun::Duplicate(part) => Outcome::Inserted(Piece::Duplicate(part)),
        Begun::Full { limit, value } => Outcome::Refused(Refusal::LimitReached { limit, value }),
        Begun::Attempt { .. } => unreachable!(),
    }
}

/// What a commit came to that has this reply.
fn committed_by(reply: &Reply) -> Committed
    requires { IsCommitReply reply.now }
    ensures { IsCommitted reply.now result }
{
    match reply {
        Reply::Entry(place) => Committed::Entry(*place),
        Reply::Refused(StepRefused::LimitReached { limit, value }) => Committed::Full {
            limit: *limit,
            value: *value,
        },
        _ => unreachable!(),
    }
}

/// Stages the block of an attempt, and commits it. Nothing happens in between, so its number is held still.
fn commit(alloc: Global, cluster: &mut Cluster, attempt: u32) -> Result<Committed, AllocError>
    requires there { HasAttempt cluster.old attempt }
    requires up { IsUpWith cluster.old attempt }
    ensures commits { IfOk result (λ done. Commits cluster.old attempt done cluster.new) }
    ensures free { IfOk result (λ _. HoldsNone cluster.new) }
    ensures events { IfOk result (λ _.
        Makes cluster.old (ev.Stage attempt ∷ ev.Commit attempt ∷ []) cluster.new) }
    ensures err { OnErr result (StopsAfter cluster.old cluster.new) }
    ensures keeps { KeepsUps cluster.old result cluster.new }
{
    let _staged = cluster.step(alloc, Event::Stage { attempt })?;
    let reply = cluster.step(alloc, Event::Commit { attempt })?;
    if let Reply::Refused(StepRefused::Down) = reply {
        unreachable!()
    }
    Ok(committed_by(&reply))
}

/// Lets a replica pull the log, and do the Get of its own block, which it has staged.
pub(crate) fn do_get(
    alloc: Global,
    cluster: &mut Cluster,
    replica: ReplicaId,
    entry: u32,
) -> Result<(), AllocError>
    requires here { IsNumber replica (length cluster.old.replicas) }
    requires there { (need : ℕ) × HasGet cluster.old entry (asked_at replica need) }
    requires idle { IsIdle cluster.old replica }
    ensures does { OnOk result ((t : TableState) → Shows cluster.old t
        → Shows cluster.new (record t { known = learned t.known replica entry })) }
    ensures idle { OnOk result (IsIdle cluster.new replica) }
    ensures events { OnOk result
        (Makes cluster.old (ev.Pull replica ∷ ev.Apply replica entry ∷ []) cluster.new) }
    ensures err { OnErr result (StopsAfter cluster.old cluster.new) }
    ensures keeps { KeepsUps cluster.old result cluster.new }
{
    let _pulled = cluster.step(alloc, Event::Pull { replica })?;
    let reply = cluster.step(alloc, Event::Apply { replica, entry })?;
    if let Reply::Refused(StepRefused::Down) = reply {
        unreachable!()
    }
    Ok(())
}

/// Inserts a block at a replica, which does its own Get then; so do other replicas, until as many as are asked for have its part.
pub(crate) fn insert_block(
    alloc: Global,
    cluster: &mut Cluster,
    replica: ReplicaId,
    block: Block,
    need: u32,
) -> Result<Outcome, AllocError>
    requires here { IsNumber replica (length cluster.old.replicas) }
    requires idle { IsIdle cluster.old replica }
    requires need { need ≢ 1 }
    requires fit { All (λ row. fits cluster.old.table.schema.columns row ≡ true) block.rows }
    ensures inserts { IfOk result (λ outcome. (t : TableState) → Shows cluster.old t → Leads cluster.new
        (ComesTo (ups cluster.old) t (asked_at replica need) (without_kinds block) outcome)) }
    ensures idle { IfOk result (λ _. IsIdle cluster.new replica) }
    ensures events { IfOk result (λ outcome.
        BlockEvents cluster.old (asked_at replica need) outcome cluster.new) }
    ensures err { OnErr result (StopsAfter cluster.old cluster.new) }
    ensures keeps { KeepsUps cluster.old result cluster.new }
{
    let partition = block.partition();
    let begun = begin(alloc, cluster, replica, block, need)?;
    let (attempt, number) = match begun {
        Begun::Attempt { attempt, number } => (attempt, number),
        _ => return Ok(unbegun(begun)),
    };
    match commit(alloc, cluster, attempt)? {
        Committed::Entry(entry) => match spread(alloc, cluster, replica, entry, need)? {
            None => Ok(Outcome::Inserted(Piece::Part(block_name(partition, number)))),
            Some(have) => Ok(Outcome::Refused(Refusal::QuorumUnmet { have, need })),
        },
        Committed::Full { limit, value } => {
            Ok(Outcome::Refused(Refusal::LimitReached { limit, value }))
        }
    }
}
