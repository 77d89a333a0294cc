//! Events that a generator draws, so that many of them are done.
ghost use Rattle.std.specs.Prelude.{◌+◌, ◌<◌, length};

use crate::draws::Draws;
use crate::moves::Move;
use crate::parts::Part;
use crate::record::{Next, Record};
use crate::rows::Numbers;
use rmt_cluster::Cluster;
use rmt_history::LogCopy;
use rmt_names::PartName;
use rmt_pick::next_mutation;
use rmt_replica::Replica;
use rmt_values::ReplicaId;

/// Rows of the blocks, each of one partition.
const BLOCKS: &[Numbers] = &[
    &[&[1, 1, 1]],
    &[&[1, 1, 2], &[2, 3, 1]],
    &[&[2, 2, 0]],
    &[&[3, 1, 4], &[1, 2, 1], &[3, 4, 2]],
    &[&[2, 0, 3], &[2, 0, 3]],
    &[&[4, 3, 3]],
    &[&[5, 0, 1]],
    &[&[11, 1, 1]],
    &[&[12, 2, 3], &[11, 1, 4]],
    &[&[12, 1, 0], &[12, 1, 0], &[11, 2, 2]],
    &[&[21, 4, 2]],
];

/// Commands, most of which change the same rows otherwise in another order.
const COMMANDS: &[&str] = &[
    "ALTER TABLE t DELETE WHERE v = 2",
    "ALTER TABLE t UPDATE u = u + 1 WHERE v = 1",
    "ALTER TABLE t UPDATE v = u WHERE k < 12",
    "ALTER TABLE t DELETE WHERE u > 3",
    "ALTER TABLE t UPDATE u = v, v = u WHERE k >= 2",
    "ALTER TABLE t UPDATE v = v - 1 WHERE u = 2",
];

/// The next event.
pub(crate) fn turn(draws: &mut Draws, cluster: &Cluster, record: &Record) -> Move {
    let replicas = cluster.state().replicas();
    if replicas.is_empty() {
        return Move::Drop(None);
    }
    let at = draws.below(replicas.len());
    let worker = &replicas[at];
    if !worker.is_up() && draws.below(6) == 0 {
        return Move::Restart(worker.number());
    }
    match draws.below(30) {
        0..=12 => insert_turn(draws, worker.number(), record),
        13..=18 => copy_turn(draws, worker, record),
        19..=26 => worker_turn(draws, worker, record, cluster.state().tree().log_len()),
        27..=28 => client_turn(draws),
        _ => session_turn(draws, worker.number()),
    }
}

/// An event of an insert: mostly the next one of an attempt that is open.
fn insert_turn(draws: &mut Draws, replica: ReplicaId, record: &Record) -> Move {
    let kind = draws.below(16);
    let Some(open) = record.drawn(draws) else {
        return allocate_turn(draws, replica);
    };
    match kind {
        0..=3 => allocate_turn(draws, replica),
        4 => Move::Commit(draws.below(8) as u32),
        5 => Move::Again(open.attempt),
        6 => Move::Abandon(open.attempt),
        _ => match open.next {
            Next::Stage => Move::Stage(open.attempt),
            Next::Commit => Move::Commit(open.attempt),
            Next::Again => Move::Again(open.attempt),
        },
    }
}

fn allocate_turn(draws: &mut Draws, replica: ReplicaId) -> Move {
    Move::Allocate(replica, BLOCKS[draws.below(BLOCKS.len())])
}

/// A pull, or an entry that is applied; where none waits, mostly an event of an insert.
fn copy_turn(draws: &mut Draws, worker: &Replica, record: &Record) -> Move {
    let (replica, len) = (worker.number(), worker.copy().len());
    match draws.below(10) {
        0..=2 => Move::Pull(replica),
        3 => apply_at(replica, draws.below(len + 1)),
        _ if worker.first_pending() < len => apply_at(replica, worker.first_pending()),
        _ => insert_turn(draws, replica, record),
    }
}

fn apply_at(replica: ReplicaId, place: usize) -> Move {
    match u32::try_from(place) {
        Ok(entry) => Move::Apply(replica, entry),
        Err(_) => Move::Pull(replica),
    }
}

/// A merge or a mutate; mostly a pull first, where there is something to pull. Where there is nothing to merge or to mutate, a
/// turn of the copy.
fn worker_turn(draws: &mut Draws, worker: &Replica, record: &Record, len: u32) -> Move {
    let copy = worker.copy();
    if copy.len() < len as usize && draws.below(4) > 0 {
        return Move::Pull(worker.number());
    }
    let next = if draws.below(5) < 3 {
        merge_of(draws, worker.number(), copy)
    } else {
        mutate_of(worker.number(), copy)
    };
    match next {
        Some(next) => next,
        None => copy_turn(draws, worker, record),
    }
}

/// The merge of two neighbours among the live parts of a copy: from one on that is drawn, the first two of one partition and version,
/// else the drawn ones. None where there are no two parts.
fn merge_of(draws: &mut Draws, replica: ReplicaId, copy: &LogCopy) -> Option<Move> {
    let live = copy.live();
    if live.len() < 2 {
        return None;
    }
    let pairs = live.len() - 1;
    let drawn = draws.below(pairs);
    for i in 0..pairs {
        let at = (drawn + i) % pairs;
        if live[at].partition() == live[at + 1].partition()
            && copy.ver(&live[at]) == copy.ver(&live[at + 1])
        {
            return Some(merge_at(replica, live, at));
        }
    }
    Some(merge_at(replica, live, drawn))
}

fn merge_at(replica: ReplicaId, live: &[PartName], at: usize) -> Move
    requires { at + 1 < length live.now }
{
    Move::Merge(replica, Part::of(&live[at]), Part::of(&live[at + 1]))
}

/// The mutation of the first part that has one to come; none where none has.
fn mutate_of(replica: ReplicaId, copy: &LogCopy) -> Option<Move> {
    let (name, place) = next_mutation(copy, copy.len())?;
    let upto = u32::try_from(place).ok()?;
    Some(Move::Mutate(replica, Part::of(&name), upto))
}

/// A command, or a drop of a partition.
fn client_turn(draws: &mut Draws) -> Move {
    match draws.below(6) {
        0..=3 => Move::Create(COMMANDS[draws.below(COMMANDS.len())]),
        _ => Move::Drop(Some(draws.below(4) as u64)),
    }
}

/// The end of a replica's session, or its begin.
fn session_turn(draws: &mut Draws, replica: ReplicaId) -> Move {
    match draws.below(5) {
        0..=2 => Move::Kill(replica),
        _ => Move::Restart(replica),
    }
}
