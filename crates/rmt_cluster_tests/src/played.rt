//! Lists of steps that are played on a cluster.
use crate::answers::Answer;
use crate::moves::{Move, step};
use crate::parts::Part;
use crate::reading::{parts_of, replica_of, rows_read, snapshot_of};
use crate::rows::{Numbers, are_equal, rows_of, sorted};
use crate::tables::Table;
use rmt_cluster::Cluster;
use rmt_values::{ReplicaId, Schema};
use std::alloc::Global;
use std::sync::Arc;
use std::test::Fail;

/// What a list does at a cluster, and what it expects.
#[derive(Clone, Copy)]
pub(crate) enum Step {
    /// An event, and its answer.
    Does(Move, Answer),
    /// The active parts of a replica.
    Parts(ReplicaId, &'static [Part]),
    /// The rows that are read at a replica, in order.
    Reads(ReplicaId, Numbers),
}

/// A new cluster of a table. These replicas are up.
pub(crate) fn new_cluster(
    alloc: Global,
    schema: Arc<Schema, Global>,
    up: &[bool],
) -> Result<Cluster, Fail> {
    if up.is_empty() || up.len() > 8 {
        return Err("there are 1 to 8 replicas".into());
    }
    let cluster = Cluster::new(alloc, schema, up)?;
    Ok(cluster)
}

/// Does these steps at a new cluster of the table of one column, of so many replicas that are up. The place of the
/// first one that comes otherwise comes back.
pub(crate) fn first_to_differ(
    alloc: Global,
    replicas: usize,
    steps: &[Step],
) -> Result<Option<usize>, Fail> {
    let schema = Table::Whole.schema(alloc)?;
    let up = [true; 8];
    let mut cluster = new_cluster(alloc, schema, &up[..replicas.min(8)])?;
    first_of(&mut cluster, alloc, steps)
}

/// Does these steps, and tells the place of the first one that comes otherwise.
fn first_of(cluster: &mut Cluster, alloc: Global, steps: &[Step]) -> Result<Option<usize>, Fail> {
    for (place, next) in steps.iter().enumerate() {
        if !comes_so(cluster, alloc, *next)? {
            return Ok(Some(place));
        }
    }
    Ok(None)
}

/// Does a step, and tells whether it comes as expected.
fn comes_so(cluster: &mut Cluster, alloc: Global, next: Step) -> Result<bool, Fail> {
    match next {
        Step::Does(event, expected) => Ok(step(cluster, alloc, event)? == expected),
        Step::Parts(replica, expected) => has_parts(cluster, alloc, replica, expected),
        Step::Reads(replica, expected) => reads(cluster, alloc, replica, expected),
    }
}

/// Whether these are the active parts of a replica.
fn has_parts(
    cluster: &Cluster,
    alloc: Global,
    replica: ReplicaId,
    expected: &[Part],
) -> Result<bool, Fail> {
    let snapshot = snapshot_of(cluster, alloc, replica)?;
    let parts = parts_of(alloc, &snapshot)?;
    Ok(parts.as_slice() == expected)
}

/// Whether these rows are read at a replica.
fn reads(
    cluster: &Cluster,
    alloc: Global,
    replica: ReplicaId,
    expected: Numbers,
) -> Result<bool, Fail> {
    let copy = replica_of(cluster, replica)?.copy();
    let snapshot = snapshot_of(cluster, alloc, replica)?;
    let rows = rows_read(alloc, &snapshot, copy)?;
    let expected = sorted(rows_of(alloc, expected)?)?;
    Ok(are_equal(&rows, &expected))
}
