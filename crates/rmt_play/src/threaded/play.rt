//! A script among workers, round by round.
ghost use Rattle.std.specs.Prelude.{◌≡◌, ◌≢◌, ◌≤◌, ◌<◌, ℕ, List as Text, [], length, IfOk};
ghost use Rattle.rmt_outside.specs.Faults.{Rose};
ghost use Rattle.rmt_values.specs.Rows.{Shape};
ghost use Rattle.rmt_events.specs.Views.{Block};
ghost use Rattle.rmt_play.specs.Seats.{IsGround, ground_view};
ghost use Rattle.rmt_play.specs.PlayerSteps.{IsEmptyPlayer};
ghost use Rattle.rmt_play.specs.ThreadedRounds.{EndsAmong, IsFirstGround, MakesAmong, SameTables};
ghost use Rattle.rmt_play.specs.declared.threaded.made.Made.TheVariants as mades;
ghost use Rattle.rmt_play.specs.declared.threaded.threaded_end.ThreadedEnd.TheVariants as ends;

use crate::progress::Progress;
use crate::script::tell_line;
use crate::teller::Teller;
use crate::threaded::cast::Cast;
use crate::threaded::ground::Ground;
use crate::threaded::made::Made;
use crate::threaded::making::add_table;
use crate::threaded::round::{play_span, ups_of};
use crate::threaded::span::Span;
use crate::threaded::threaded_end::ThreadedEnd;
use rmt_list::List;
use rmt_outside::{Gate, Point};
use rmt_reply::Line;
use rmt_values::{Name, Schema};
use rmt_workers::Carried;
use std::alloc::{AllocError, Global};
use std::sync::Wait;
use std::thread::Threads;

/// Two replicas and no table. At an error no memory was left.
fn first_ground(alloc: Global) -> Result<Ground, AllocError>
    ensures { IfOk result IsFirstGround }
{
    let up = [true; 8];
    let ups = ups_of(alloc, 2, &up)?;
    let carried = Carried {
        states: Vec::new(alloc),
        known: Vec::new(alloc),
        up: ups,
    };
    let cast = Cast {
        replicas: 2,
        up,
        names: Vec::new(alloc),
        answered: 0,
    };
    Ok(Ground { cast, carried })
}

/// Passes the point after the reply of the next statement was written, and counts it.
fn answer<G: Gate>(gate: &G, ground: Ground) -> Ground
    ensures { SameTables ground result }
{
    let Ground { cast, carried } = ground;
    let Cast {
        replicas,
        up,
        names,
        answered,
    } = cast;
    gate.pass(Point::Answered {
        statement: answered,
    });
    let cast = Cast {
        replicas,
        up,
        names,
        answered: answered.saturating_add(1),
    };
    Ground { cast, carried }
}

/// Makes the table of a CREATE, and tells the reply, after which the script goes on at a place.
fn make_table<T: Teller, G: Gate>(
    alloc: Global,
    ground: Ground,
    table: Name,
    schema: Schema,
    end: usize,
    teller: &mut T,
    gate: &G,
) -> Made
    requires some { 1 ≤ length ground.carried.up.items }
    requires few { length ground.carried.up.items ≤ 8 }
    ensures made { MakesAmong T.outlet table schema ground (T.told teller.old) (T.told teller.new) result }
    ensures cause { result ≡ mades.WriteFault → Rose (T.faults teller.old) (T.faults teller.new) }
    ensures quiet { result ≢ mades.WriteFault → T.faults teller.new ≡ T.faults teller.old }
    ensures later { T.faults teller.old ≤ T.faults teller.new }
{
    let Ok(ground) = add_table(alloc, ground, table, schema) else {
        return Made::Memory;
    };
    match tell_line(alloc, Line::Okay, end, teller) {
        Progress::On { .. } => Made::On(answer(gate, ground)),
        Progress::WriteFault => Made::WriteFault,
        Progress::Memory => Made::Memory,
        Progress::AtEnd | Progress::Creates { .. } => unreachable!(),
    }
}

/// Plays a script to its end among so many workers, each reply told before the next statement begins. Tables are made between the
/// rounds.
pub(crate) fn play<R: Threads + Wait + Sync, G: Gate + Sync, T: Teller>(
    rt: &R,
    alloc: Global,
    script: &[u8],
    workers: u8,
    teller: &mut T,
    gate: &G,
) -> ThreadedEnd
    requires some { 0 < workers }
    requires most { workers ≤ 8 }
    ensures end { EndsAmong T.outlet script.now (T.told teller.old) (T.told teller.new) result }
    ensures cause { result ≡ ends.WriteFault → Rose (T.faults teller.old) (T.faults teller.new) }
    ensures quiet { result ≢ ends.WriteFault → T.faults teller.new ≡ T.faults teller.old }
    ensures later { T.faults teller.old ≤ T.faults teller.new }
{
    let Ok(first) = first_ground(alloc) else {
        return ThreadedEnd::Memory;
    };
    let mut ground = first;
    let mut at = 0;
    let mut refused = 0;
    'rounds: loop {
        match play_span(
            rt, alloc, script, workers, ground, at, refused, teller, gate,
        ) {
            Span::AtEnd { refused, ground } => {
                let Ground { carried, .. } = ground;
                let Carried { states, .. } = carried;
                let states = List::new(states);
                return ThreadedEnd::Whole { refused, states };
            }
            Span::Creates {
                table,
                schema,
                end,
                refused: count,
                ground: left,
            } => match make_table(alloc, left, table, schema, end, teller, gate) {
                Made::On(next) => {
                    ground = next;
                    at = end;
                    refused = count;
                }
                Made::WriteFault => return ThreadedEnd::WriteFault,
                Made::Memory => return ThreadedEnd::Memory,
            },
            Span::WriteFault => return ThreadedEnd::WriteFault,
            Span::Memory => return ThreadedEnd::Memory,
        }
    }
}
