//! What a replica has.
ghost use Rattle.std.specs.List.{All};
ghost use Rattle.rmt_history.specs.Mutations.{HasOrder};

use crate::moves::has_replica;
use crate::parts::Part;
use crate::rows::sorted;
use rmt_changes::{due_mutations, pending_row};
use rmt_cluster::Cluster;
use rmt_entries::Entry;
use rmt_history::LogCopy;
use rmt_names::data_version;
use rmt_partset::{NamedPart, Snapshot};
use rmt_replica::Replica;
use rmt_row::Seen;
use rmt_values::{ReplicaId, Row};
use std::alloc::Global;
use std::test::Fail;

/// A replica of the cluster.
pub(crate) fn replica_of(cluster: &Cluster, replica: ReplicaId) -> Result<&Replica, Fail> {
    let at = usize::from(replica).wrapping_sub(1);
    match cluster.state().replicas().get(at) {
        Some(worker) => Ok(worker),
        None => Err("no such replica".into()),
    }
}

/// What a query reads at a replica that is up.
pub(crate) fn snapshot_of(
    cluster: &Cluster,
    alloc: Global,
    replica: ReplicaId,
) -> Result<Snapshot, Fail> {
    has_replica(cluster, replica)?;
    match cluster.snapshot(alloc, replica) {
        Ok(snapshot) => Ok(snapshot),
        Err(_) => Err("the replica is down".into()),
    }
}

/// The parts of a snapshot.
pub(crate) fn parts_of(alloc: Global, snapshot: &Snapshot) -> Result<Vec<Part>, Fail> {
    let mut parts = Vec::new(alloc);
    for part in snapshot.parts() {
        parts.push(Part::of(part.name()))?;
    }
    Ok(parts)
}

/// The rows that are read of a snapshot, in order of all columns: those of its parts after the mutations of the log that are
/// pending for each.
pub(crate) fn rows_read(
    alloc: Global,
    snapshot: &Snapshot,
    copy: &LogCopy,
) -> Result<Vec<Row>, Fail> {
    let mut rows = Vec::new(alloc);
    let mutations = all_mutations(copy);
    for part in snapshot.parts() {
        read_part(alloc, &mut rows, part, mutations)?;
    }
    Ok(sorted(rows)?)
}

/// The mutations of a copy, the oldest first.
fn all_mutations(copy: &LogCopy) -> &[Seen<Entry>]
    ensures { All (λ token. HasOrder token.value) result.now }
{
    match copy.mutations(copy.len()) {
        Some(list) => list.as_slice(),
        None => &[],
    }
}

/// Adds the rows that are read of a part.
fn read_part(
    alloc: Global,
    rows: &mut Vec<Row>,
    part: &NamedPart,
    mutations: &[Seen<Entry>],
) -> Result<(), Fail>
    requires { All (λ token. HasOrder token.value) mutations.now }
{
    let (name, data) = (part.name(), part.data());
    let (partition, version) = (name.partition(), data_version(name));
    let due = due_mutations(alloc, mutations, partition, version, None)?;
    for i in 0..data.rows() {
        let row = data.row(i)?.ok_or("no row")?;
        if let Some(row) = pending_row(alloc, &due, row)? {
            rows.push(row)?;
        }
    }
    Ok(())
}
