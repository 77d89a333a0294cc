//! Events are read back from a cluster as they were done.
use crate::answers::Answer;
use crate::blocks::block_of;
use crate::commands::command_of;
use crate::draws::Draws;
use crate::game::Game;
use crate::lists::LISTS;
use crate::moves::{Move, step};
use crate::parts::Part;
use crate::played::{Step, new_cluster};
use crate::rows::Numbers;
use crate::tables::Table;
use crate::turns::turn;
use rmt_block::Block;
use rmt_cluster::Cluster;
use rmt_events::Event;
use rmt_list::Equals;
use rmt_names::PartName;
use rmt_values::{CheckedMutation, Schema};
use std::alloc::Global;
use std::test::Fail;

/// How many events a list has that is drawn.
const TURNS: usize = 60;

/// How many lists are drawn.
const COUNT: u32 = 100;

/// Does the events of a worked list, and tells the place of the first one that is read back otherwise.
fn worked(alloc: Global, replicas: usize, steps: &[Step]) -> Result<Option<usize>, Fail> {
    let schema = Table::Whole.schema(alloc)?;
    let up = [true; 8];
    let mut cluster = new_cluster(alloc, schema, &up[..replicas.min(8)])?;
    plays(alloc, &mut cluster, steps)
}

/// The same at a cluster.
fn plays(alloc: Global, cluster: &mut Cluster, steps: &[Step]) -> Result<Option<usize>, Fail> {
    let done = does_all(alloc, cluster, steps)?;
    first_misread(alloc, cluster, &done)
}

/// Does the events of a list, which come back with their answers.
fn does_all(
    alloc: Global,
    cluster: &mut Cluster,
    steps: &[Step],
) -> Result<Vec<(Move, Answer)>, Fail> {
    let mut done = Vec::new(alloc);
    for next in steps {
        if let Step::Does(next, _) = next {
            let answer = step(cluster, alloc, *next)?;
            done.push((*next, answer))?;
        }
    }
    Ok(done)
}

/// The same of the list of a seed, at the divided table.
fn drawn(alloc: Global, seed: u32) -> Result<Option<usize>, Fail> {
    let schema = Table::Divided(2).schema(alloc)?;
    let mut game = Game::new(alloc, schema, &[true, true, false])?;
    let mut draws = Draws::new(seed);
    let mut done = Vec::new(alloc);
    for _turn in 0..TURNS {
        let next = turn(&mut draws, &game.cluster, &game.record);
        let answer = game.does(alloc, next)?;
        done.push((next, answer))?;
    }
    first_misread(alloc, &game.cluster, &done)
}

/// The first place at which a cluster has stored another event than was done there, or another answer.
fn first_misread(
    alloc: Global,
    cluster: &Cluster,
    done: &[(Move, Answer)],
) -> Result<Option<usize>, Fail> {
    for (place, (next, answer)) in done.iter().enumerate() {
        if !is_read(alloc, cluster, place, *next, *answer)? {
            return Ok(Some(place));
        }
    }
    if cluster.events().len() != done.len() {
        return Ok(Some(done.len()));
    }
    Ok(None)
}

/// Whether this event and this answer are read at a place.
fn is_read(
    alloc: Global,
    cluster: &Cluster,
    place: usize,
    next: Move,
    answer: Answer,
) -> Result<bool, Fail> {
    let Some((event, reply)) = cluster.events().get(alloc, place)? else {
        return Ok(false);
    };
    if Answer::of(reply)? != answer {
        return Ok(false);
    }
    is_event(alloc, cluster.state().tree().schema(), &event, next)
}

fn is_event(alloc: Global, schema: &Schema, event: &Event, next: Move) -> Result<bool, Fail> {
    match (event, next) {
        (
            Event::Allocate {
                replica,
                block,
                need,
            },
            Move::Allocate(other, rows),
        ) => {
            if *replica != other || *need != 0 {
                return Ok(false);
            }
            has_rows(alloc, schema, block, rows)
        }
        (Event::CreateMutation { command }, Move::Create(script)) => {
            is_command(alloc, schema, command, script)
        }
        _ => Ok(is_plain(event, next)),
    }
}

fn has_rows(alloc: Global, schema: &Schema, block: &Block, rows: Numbers) -> Result<bool, Fail> {
    let expected = block_of(alloc, schema, rows)?;
    Ok(block.partition() == expected.partition() && block.digest() == expected.digest())
}

fn is_command(
    alloc: Global,
    schema: &Schema,
    command: &CheckedMutation,
    script: &str,
) -> Result<bool, Fail> {
    let expected = command_of(alloc, schema, script)?;
    Ok(command.equals(&expected))
}

/// The same of an event that has neither a block nor a command.
fn is_plain(event: &Event, next: Move) -> bool {
    match (event, next) {
        (Event::Again { attempt }, Move::Again(other))
        | (Event::Stage { attempt }, Move::Stage(other))
        | (Event::Commit { attempt }, Move::Commit(other))
        | (Event::Abandon { attempt }, Move::Abandon(other)) => *attempt == other,
        (Event::Pull { replica }, Move::Pull(other))
        | (Event::Kill { replica }, Move::Kill(other))
        | (Event::Restart { replica }, Move::Restart(other)) => *replica == other,
        (Event::Apply { replica, entry }, Move::Apply(other, place)) => {
            *replica == other && *entry == place
        }
        (Event::Merge { replica, sources }, Move::Merge(other, first, second)) => {
            *replica == other && are(sources.as_slice(), first, second)
        }
        (Event::Mutate { replica, old, upto }, Move::Mutate(other, part, place)) => {
            *replica == other && Part::of(old) == part && *upto == place
        }
        (Event::DropPartition { partition }, Move::Drop(other)) => *partition == other,
        _ => false,
    }
}

fn are(sources: &[PartName], first: Part, second: Part) -> bool {
    match sources {
        [one, other] => Part::of(one) == first && Part::of(other) == second,
        _ => false,
    }
}

#[test]
fn worked_events_are_read_back(rt: HostRuntime) -> Result<(), Fail> {
    for (list, (replicas, steps)) in LISTS.iter().enumerate() {
        assert_eq!(rt;
            worked(rt.alloc(), *replicas, steps)?,
            None,
            "the list {list}"
        );
    }
    Ok(())
}

#[test]
fn drawn_events_are_read_back(rt: HostRuntime) -> Result<(), Fail> {
    for seed in 0..COUNT {
        assert_eq!(rt;
            drawn(rt.alloc(), seed)?,
            None,
            "the list of the seed {seed}"
        );
    }
    Ok(())
}
