ghost use Rattle.std.specs.Prelude.{◌≡◌};
ghost use Rattle.rmt_tickets.specs.Blank.{name_of};

use super::*;
use std::alloc::{AllocError, Global};
use std::marker::Brand;
use std::sync::atomic::{AtomicBool, Ordering};
use std::sync::{Mutex, Wait};
use std::test::*;
use std::thread;
use std::thread::Threads;

/// Counts under a lock the tickets that were worked, and stops the workers at the hundredth.
#[derive(Drop)]
struct Tally<'a, R: Wait> {
    rt: &'a R,
    worked: Mutex<u64>,
    stop: AtomicBool,
}

impl<'a, R: Wait> Work for Tally<'a, R> {
    ghost use Rattle.std.specs.Prelude.{⊤};

    ghost answered = { λ w t r. ⊤ };

    fn run(&self, _ticket: Ticket) -> Result<(), AllocError> {
        let mut worked = self.worked.lock(self.rt);
        *worked = worked.wrapping_add(1);
        if *worked == 100 {
            self.stop.store(true, Ordering::SeqCst);
        }
        Ok(())
    }
}

/// Runs out of memory at each ticket.
#[derive(Drop)]
struct Starved;

impl Work for Starved {
    ghost use Rattle.std.specs.Prelude.{⊤};

    ghost answered = { λ w t r. ⊤ };

    fn run(&self, _ticket: Ticket) -> Result<(), AllocError> {
        Err(AllocError)
    }
}

/// How often a ticket was put in all places, and how often taken.
fn counts<N: NamesQueue>(places: &Vec<Tickets<N>>, ticket: Ticket) -> (u64, u64) {
    let mut put = 0u64;
    let mut taken = 0u64;
    for place in places.iter() {
        put = put.wrapping_add(place.put(ticket));
        taken = taken.wrapping_add(place.taken(ticket));
    }
    (put, taken)
}

/// How often a ticket is among these.
fn times(tickets: &[Ticket], ticket: Ticket) -> u64 {
    let mut times = 0u64;
    for other in tickets {
        if *other == ticket {
            times = times.wrapping_add(1);
        }
    }
    times
}

/// A thread for each place, until all have ended.
fn serve_all<N: NamesQueue + Send + Sync, R: Threads + Wait + Sync>(
    rt: &R,
    queue: &TicketQueue<N>,
    places: &mut Vec<Tickets<N>>,
    tally: &Tally<'_, R>,
) {
    thread::scope(thread::scope_env(), rt, |scope| {
        for place in places.iter_mut() {
            let _ = scope.spawn(move || place.serve(rt, queue, &tally.stop, tally));
        }
    });
}

/// What was put, taken and left of each ticket, after two workers had a hundred turns or a few more.
fn two_workers<N: NamesQueue + Send + Sync, R: Threads + Wait + Sync>(
    rt: &R,
    alloc: Global,
    blank: BlankQueue,
) -> Result<Vec<(u64, u64, u64)>, AllocError>
    requires { name_of blank ≡ N.queue }
{
    let (queue, pass) = TicketQueue::<N>::open(blank);
    let mut places = queue.deal(rt, alloc, pass, 1, 3, 2)?;
    let tally = Tally {
        rt,
        worked: Mutex::new(0),
        stop: AtomicBool::new(false),
    };
    serve_all(rt, &queue, &mut places, &tally);
    let mut sums = Vec::new(alloc);
    for replica in 0..3u8 {
        let (put, taken) = counts(&places, Ticket::new(0, replica));
        sums.push((put, taken, 0))?;
    }
    let Ok(left) = queue.settle(rt, alloc, places) else {
        return Err(AllocError);
    };
    for (replica, sum) in (0..3u8).zip(sums.iter_mut()) {
        sum.2 = times(&left, Ticket::new(0, replica));
    }
    Ok(sums)
}

/// A worker that runs out of memory, and what settling says where the other place is kept back.
fn one_starved<N: NamesQueue, R: Wait>(
    rt: &R,
    alloc: Global,
    blank: BlankQueue,
) -> Result<(Served, Result<Vec<Ticket>, SettleError>), AllocError>
    requires { name_of blank ≡ N.queue }
{
    let (queue, pass) = TicketQueue::<N>::open(blank);
    let mut places = queue.deal(rt, alloc, pass, 1, 1, 2)?;
    let Some(mut place) = places.pop() else {
        return Err(AllocError);
    };
    let served = place.serve(rt, &queue, &AtomicBool::new(false), &Starved);
    Ok((served, queue.settle(rt, alloc, places)))
}

#[test]
fn what_two_workers_put_is_taken_or_left(rt: HostRuntime) -> Result<(), Fail> {
    let blank = BlankQueue::new(rt.alloc())?;
    let sums = two_workers::<Brand, HostRuntime>(&rt, rt.alloc(), blank)?;
    let mut turns = 0u64;
    for (put, taken, left) in sums.iter() {
        assert_eq!(rt; *left, 1);
        assert_eq!(rt; *put, taken.wrapping_add(*left));
        turns = turns.wrapping_add(*taken);
    }
    assert!(rt; turns >= 100, "the workers had {turns} turns");
    Ok(())
}

#[test]
fn a_worker_ends_where_memory_runs_out(rt: HostRuntime) -> Result<(), Fail> {
    let blank = BlankQueue::new(rt.alloc())?;
    let (served, left) = one_starved::<Brand, HostRuntime>(&rt, rt.alloc(), blank)?;
    assert!(rt;
        served == Served::OutOfMemory(Ticket::new(0, 0)),
        "the ticket was put back"
    );
    assert!(rt;
        left.is_err_and(|e| e == SettleError::Missing),
        "a place is missing"
    );
    Ok(())
}
