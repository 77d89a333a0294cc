//! Lists of events that a generator draws: whatever they are, replicas that did the whole log agree with one another, and
//! with a plain table that is told what was accepted.
use crate::agreement::difference_of;
use crate::game::Game;
use crate::tables::Table;
use std::alloc::Global;
use std::test::Fail;

/// How many events a list has.
const TURNS: usize = 60;

/// How many lists a test plays.
const COUNT: u32 = 500;

/// The list of a seed, played at a new cluster of the divided table.
fn played(alloc: Global, seed: u32, up: &[bool], window: u32) -> Result<Game, Fail> {
    let schema = Table::Divided(window).schema(alloc)?;
    let mut game = Game::new(alloc, schema, up)?;
    game.plays(alloc, seed, TURNS)?;
    Ok(game)
}

/// What comes of a list once each replica has done the log in order; in every second one each has tried the entries from
/// the last one on before that.
fn drained(alloc: Global, seed: u32) -> Result<Option<&'static str>, Fail> {
    let mut game = played(alloc, seed, &[true, true, false], 2)?;
    drains(alloc, &mut game, seed % 2 == 1)
}

/// The same of a list that was played; it may have tried the entries from the last one on.
fn drains(
    alloc: Global,
    game: &mut Game,
    is_tried_backwards: bool,
) -> Result<Option<&'static str>, Fail> {
    game.wakes(alloc)?;
    if is_tried_backwards {
        game.tries_backwards(alloc)?;
    }
    if !game.drains(alloc)? {
        return Ok(Some("an entry isn't done, although all before it are"));
    }
    difference_of(alloc, game)
}

/// What comes of a list that background events follow, once each replica was brought to the whole log.
fn synced(alloc: Global, seed: u32) -> Result<Option<&'static str>, Fail> {
    let mut game = played(alloc, seed, &[true, true, true], 100)?;
    syncs(alloc, &mut game, seed)
}

/// The same of a list that was played.
fn syncs(alloc: Global, game: &mut Game, seed: u32) -> Result<Option<&'static str>, Fail> {
    game.runs(alloc, seed, 40)?;
    game.wakes(alloc)?;
    game.syncs(alloc)?;
    difference_of(alloc, game)
}

/// The third replica is down at first, and blocks leave the window and are accepted again.
#[test]
fn a_replica_that_comes_late_agrees(rt: HostRuntime) -> Result<(), Fail> {
    for seed in 30_000..30_000 + COUNT {
        assert_eq!(rt;
            drained(rt.alloc(), seed)?,
            None,
            "the list of the seed {seed}"
        );
    }
    Ok(())
}

/// Background events change no row.
#[test]
fn background_events_change_no_row(rt: HostRuntime) -> Result<(), Fail> {
    for seed in 0..COUNT {
        assert_eq!(rt;
            synced(rt.alloc(), seed)?,
            None,
            "the list of the seed {seed}"
        );
    }
    Ok(())
}
