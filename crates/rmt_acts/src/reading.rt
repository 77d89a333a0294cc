//! What is read of a table at a replica.
ghost use Rattle.std.specs.Prelude.{◌≡◌, length, true, IfOk};
ghost use Rattle.std.specs.List.{All};
ghost use Rattle.rmt_state.specs.States.{IsNumber};
ghost use Rattle.rmt_format.specs.PartBytes.{HasPartBytes};
ghost use Rattle.rmt_query.specs.Answers.{answer_of};
ghost use Rattle.rmt_partset.specs.Snapshots.{names_in};
ghost use Rattle.rmt_statement_model.specs.TableStates.{TableState, plain_rows, shown_at};
ghost use Rattle.rmt_statement_model.specs.Reads.{IsReading, KnowsAll};
ghost use Rattle.rmt_statement_model.specs.Shows.{Shows, ups};

use rmt_cluster::Cluster;
use rmt_live_names::all_mutations;
use rmt_partset::Snapshot;
use rmt_query::{Tuple, answer};
use rmt_replica::ReplicaError;
use rmt_values::{CheckedQuery, ReplicaId, Schema};
use std::alloc::{AllocError, Global};

/// The table's schema.
pub fn schema_of(cluster: &Cluster) -> &Schema
    ensures { result.now ≡ cluster.now.table.schema }
{
    cluster.state().tree().schema()
}

/// The active parts of a replica. At an error no memory was left.
pub fn read_parts(
    alloc: Global,
    cluster: &Cluster,
    replica: ReplicaId,
) -> Result<Snapshot, AllocError>
    requires here { IsNumber replica (length cluster.now.replicas) }
    requires up { ups cluster.now replica ≡ true }
    ensures reading { IfOk result (λ parts. (t : TableState) → Shows cluster.now t
        → IsReading t replica parts) }
    ensures known { IfOk result (λ parts. (t : TableState) → Shows cluster.now t
        → Shows cluster.now (shown_at replica (names_in parts) t)) }
    ensures keys { IfOk result (All (λ part. part.rows.key ≡ cluster.now.table.schema.key)) }
    ensures bytes { IfOk result (All (λ part. HasPartBytes cluster.now.table.schema part.rows)) }
{
    // What always holds of a cluster is known here.
    cluster.drained_replicas_agree();
    cluster.replicas_are_numbered();
    match cluster.snapshot(alloc, replica) {
        Ok(parts) => Ok(parts),
        Err(ReplicaError::Memory) => Err(AllocError),
        Err(ReplicaError::Down) => unreachable!(),
    }
}

/// What a query answers at a replica where every place of the log is known: the mutations that are pending for its parts
/// are applied while it is read. At an error no memory was left.
pub fn answer_up_to_date(
    alloc: Global,
    cluster: &Cluster,
    replica: ReplicaId,
    query: &CheckedQuery,
) -> Result<Vec<Tuple>, AllocError>
    requires here { IsNumber replica (length cluster.now.replicas) }
    requires up { ups cluster.now replica ≡ true }
    ensures { IfOk result (λ tuples. (t : TableState) → Shows cluster.now t → KnowsAll t replica
        → tuples.items ≡ answer_of t.schema query.now (plain_rows t)) }
{
    // What always holds of a cluster is known here.
    cluster.drained_replicas_agree();
    cluster.replicas_are_numbered();
    let parts = read_parts(alloc, cluster, replica)?;
    let pending = all_mutations(cluster.copy(replica));
    answer(alloc, &parts, query, schema_of(cluster), pending)
}
