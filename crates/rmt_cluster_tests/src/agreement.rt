//! Whether replicas that did the whole log agree with one another, and with a plain table.
use crate::expected::{client_entries, plain_rows};
use crate::game::Game;
use crate::reading::rows_read;
use crate::rows::{are_equal, are_same};
use rmt_granules::PartData;
use rmt_names::PartName;
use rmt_partset::Snapshot;
use rmt_replica::Replica;
use rmt_values::Row;
use std::alloc::Global;
use std::test::Fail;

/// What replicas differ in that did the whole log; none where they differ in nothing.
pub(crate) fn difference_of(alloc: Global, game: &Game) -> Result<Option<&'static str>, Fail> {
    let state = game.cluster.state();
    let Some(first) = state.replicas().first() else {
        return Err("there are no replicas".into());
    };
    if client_entries(first.copy()) != game.record.accepted().len() {
        return Ok(Some("what was accepted isn't what the log has"));
    }
    let plain = plain_rows(alloc, state.tree().schema(), &game.record, first.copy())?;
    for worker in state.replicas() {
        if let Some(other) = difference_at(alloc, worker, first, &plain)? {
            return Ok(Some(other));
        }
    }
    Ok(None)
}

/// What a replica has otherwise than the first one and than the plain rows.
fn difference_at(
    alloc: Global,
    worker: &Replica,
    first: &Replica,
    plain: &[Row],
) -> Result<Option<&'static str>, Fail> {
    if !worker.drained() {
        return Ok(Some("an entry isn't done"));
    }
    if !has_live_parts(alloc, worker)? {
        return Ok(Some("the parts aren't the live ones of the log"));
    }
    if !has_parts_of(alloc, worker, first)? {
        return Ok(Some("the parts aren't those of the first replica"));
    }
    if !reads(alloc, worker, plain)? {
        return Ok(Some("the rows that are read aren't the plain ones"));
    }
    Ok(None)
}

fn has_live_parts(alloc: Global, worker: &Replica) -> Result<bool, Fail> {
    let snapshot = worker.snapshot(alloc)?;
    Ok(are_live(&snapshot, worker.copy().live()))
}

fn has_parts_of(alloc: Global, worker: &Replica, first: &Replica) -> Result<bool, Fail> {
    let parts = worker.snapshot(alloc)?;
    let expected = first.snapshot(alloc)?;
    have_equal_parts(&parts, &expected)
}

fn reads(alloc: Global, worker: &Replica, plain: &[Row]) -> Result<bool, Fail> {
    let snapshot = worker.snapshot(alloc)?;
    let rows = rows_read(alloc, &snapshot, worker.copy())?;
    Ok(are_equal(&rows, plain))
}

/// Whether the parts have these names.
fn are_live(snapshot: &Snapshot, live: &[PartName]) -> bool {
    if snapshot.len() != live.len() {
        return false;
    }
    for (part, name) in snapshot.parts().iter().zip(live.iter()) {
        if part.name() != name {
            return false;
        }
    }
    true
}

/// Whether the parts have the same names and the same rows.
fn have_equal_parts(left: &Snapshot, right: &Snapshot) -> Result<bool, Fail> {
    if left.len() != right.len() {
        return Ok(false);
    }
    for (a, b) in left.parts().iter().zip(right.parts().iter()) {
        if a.name() != b.name() || !have_equal_rows(a.data(), b.data())? {
            return Ok(false);
        }
    }
    Ok(true)
}

/// Whether two parts have the same rows.
fn have_equal_rows(left: &PartData, right: &PartData) -> Result<bool, Fail> {
    if left.rows() != right.rows() {
        return Ok(false);
    }
    for i in 0..left.rows() {
        if !have_equal_row(left, right, i)? {
            return Ok(false);
        }
    }
    Ok(true)
}

/// Whether two parts have the same row at a place.
fn have_equal_row(left: &PartData, right: &PartData, i: usize) -> Result<bool, Fail> {
    let one = left.row(i)?;
    let other = right.row(i)?;
    match (one, other) {
        (Some(one), Some(other)) => Ok(are_same(&one, &other)),
        _ => Err("no row".into()),
    }
}
