//! A turn of the generator.
ghost use Rattle.std.specs.Prelude.{◌≡◌, ◌<◌, ◌≤◌, ◌^◌, IfOk, IfSome, cond, length, slice_get};
ghost use Rattle.rmt_model.specs.Words.{Has};
ghost use Rattle.rmt_replica.specs.Replicas.{ReplicaView};
ghost use Rattle.rmt_replica.specs.SeenReplica.{shown};
ghost use Rattle.rmt_events.specs.declared.event.Event.TheVariants as ev;
ghost use Rattle.rmt_events.specs.Draws.{chosen, next_mutation as mutation_next, pending, turn_at as turn_at_replica, apply_or_pull as apply_or_pull_turn, merge_or_pull as merge_or_pull_event, mutate_or_pull as mutate_or_pull_event};
ghost use Rattle.rmt_draws.specs.Turns.{IsTurn};

use crate::generator::{drawn, stepped};
use rmt_events::Event;
use rmt_list::List;
use rmt_pick::{Limits, choose, next_mutation};
use rmt_replica::Replica;
use std::alloc::{AllocError, Global};

/// How many parts a merge takes at most.
const MOST_PARTS: usize = 10;

/// The event of the turn from a state of the generator, and the generator's state after it. The first draw gives the kind of
/// event, the second the replica. Where an entry is applied, a third draw gives it, of those that aren't done. Replicas come
/// in the order of their numbers.
///
/// At an error no memory was left.
pub fn turn(alloc: Global, replicas: &[Replica], x: u32) -> Result<(Event, u32), AllocError>
    requires some { 0 < length replicas.now }
    requires few { (r : ReplicaView) → Has replicas.now r → length r.log ≤ 65536 }
    requires state { x < 2 ^ 31 }
    ensures turn { IfOk result (λ t. IsTurn replicas.now x t.0 t.1) }
    ensures below { IfOk result (λ t. t.1 < 2 ^ 31) }
{
    let first = stepped(x);
    let second = stepped(first);
    let worker = &replicas[drawn(second) % replicas.len()];
    turn_at(alloc, worker, drawn(first) % 8, second)
}

/// The turn at a replica, by the draw that gives the kind of event: 0 and 1 pull, 2 to 4 apply, 5 merge, 6 mutate, 7 restart.
///
/// At an error no memory was left.
fn turn_at(alloc: Global, worker: &Replica, kind: usize, x: u32) -> Result<(Event, u32), AllocError>
    requires few { length worker.now.log ≤ 65536 }
    requires state { x < 2 ^ 31 }
    ensures event { IfOk result (λ t. t.0 ≡ (turn_at_replica kind x (shown worker.now)).event) }
    ensures state { IfOk result (λ t. t.1 ≡ (turn_at_replica kind x (shown worker.now)).state) }
    ensures below { IfOk result (λ t. t.1 < 2 ^ 31) }
{
    match kind {
        0 | 1 => Ok((
            Event::Pull {
                replica: worker.number(),
            },
            x,
        )),
        2..=4 => Ok(apply_or_pull(worker, x)),
        5 => Ok((merge_or_pull(alloc, worker)?, x)),
        6 => Ok((mutate_or_pull(worker), x)),
        _ => Ok((restart_or_pull(worker), x)),
    }
}

/// The entry that is drawn of those that aren't done, and the generator's state after that draw; a pull, and no draw, where
/// all are done.
fn apply_or_pull(worker: &Replica, x: u32) -> (Event, u32)
    requires few { length worker.now.log ≤ 65536 }
    requires state { x < 2 ^ 31 }
    ensures event { result.0 ≡ (apply_or_pull_turn x worker.now.number (pending (shown worker.now))).event }
    ensures state { result.1 ≡ (apply_or_pull_turn x worker.now.number (pending (shown worker.now))).state }
    ensures below { result.1 < 2 ^ 31 }
{
    let replica = worker.number();
    let count = count_pending(worker);
    if count == 0 {
        return (Event::Pull { replica }, x);
    }
    let next = stepped(x);
    let entry = nth_pending(worker, drawn(next) % count).unwrap();
    let entry = entry as u32;
    (Event::Apply { replica, entry }, next)
}

/// How many entries of a replica's copy aren't done.
fn count_pending(worker: &Replica) -> usize
    ensures { result ≡ length (pending (shown worker.now)) }
{
    let copy = worker.copy();
    let mut count = 0;
    'places: for i in worker.first_pending()..copy.len() {
        if !worker.done(i) {
            count += 1;
        }
    }
    count
}

/// The place of the n-th entry of a replica's copy that isn't done, counted from 0; none where there are no more than n.
fn nth_pending(worker: &Replica, n: usize) -> Option<usize>
    ensures place { result ≡ slice_get (pending (shown worker.now)) n }
    ensures within { IfSome result (λ i. i < length worker.now.log) }
{
    let copy = worker.copy();
    let mut left = n;
    'places: for i in worker.first_pending()..copy.len() {
        if worker.done(i) {
            continue;
        }
        if left == 0 {
            return Some(i);
        }
        left -= 1;
    }
    None
}

/// A merge of the parts that come next, at most `MOST_PARTS`; a pull where there are none to merge.
///
/// At an error no memory was left.
fn merge_or_pull(alloc: Global, worker: &Replica) -> Result<Event, AllocError>
    ensures { IfOk result (λ event. event ≡ merge_or_pull_event worker.now.number (chosen worker.now.log 10)) }
{
    let replica = worker.number();
    let found = choose(alloc, worker.copy(), &Limits::new(MOST_PARTS))?;
    let Some(names) = found else {
        return Ok(Event::Pull { replica });
    };
    let sources = List::new(names);
    Ok(Event::Merge { replica, sources })
}

/// A mutation of the first part for which one is pending, up to the last one; a pull where there is none.
fn mutate_or_pull(worker: &Replica) -> Event
    requires { length worker.now.log ≤ 65536 }
    ensures { result ≡ mutate_or_pull_event worker.now.number (mutation_next worker.now.log) }
{
    let replica = worker.number();
    let copy = worker.copy();
    let Some(found) = next_mutation(copy, copy.len()) else {
        return Event::Pull { replica };
    };
    let (old, place) = found;
    let upto = place as u32;
    Event::Mutate { replica, old, upto }
}

/// A restart of a replica that is up; a pull where it is down.
fn restart_or_pull(worker: &Replica) -> Event
    ensures { result ≡ cond worker.now.up (ev.Restart worker.now.number) (ev.Pull worker.now.number) }
{
    let replica = worker.number();
    if worker.is_up() {
        Event::Restart { replica }
    } else {
        Event::Pull { replica }
    }
}
