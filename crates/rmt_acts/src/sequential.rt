//! What a sequential SELECT reads.
ghost use Rattle.std.specs.Prelude.{◌≡◌, length, true, IfOk, IfErr};
ghost use Rattle.std.specs.List.{All};
ghost use Rattle.rmt_partset.specs.Snapshots.{names_in};
ghost use Rattle.rmt_state.specs.States.{IsNumber};
ghost use Rattle.rmt_statement_model.specs.TableStates.{TableState, shown_at};
ghost use Rattle.rmt_statement_model.specs.Reads.{IsSequentialReading, LacksLast};
ghost use Rattle.rmt_statement_model.specs.Shows.{Shows, ups};

use crate::reading::read_parts;
use rmt_cluster::Cluster;
use rmt_partset::Snapshot;
use rmt_reply::Refusal;
use rmt_sequential::{has_cover, without};
use rmt_values::ReplicaId;
use std::alloc::{AllocError, Global};

/// The active parts of a replica without those that cover the part which waits for its quorum. Or gives the refusal, where none of
/// them covers the last part whose quorum was met. At an error no memory was left.
///
/// ClickHouse documentation, settings: `select_sequential_consistency`.
pub fn read_in_quorum(
    alloc: Global,
    cluster: &Cluster,
    replica: ReplicaId,
) -> Result<Result<Snapshot, Refusal>, AllocError>
    requires here { IsNumber replica (length cluster.now.replicas) }
    requires up { ups cluster.now replica ≡ true }
    ensures reading { IfOk result (λ found. IfOk found (λ parts. (t : TableState)
        → Shows cluster.now t → IsSequentialReading t replica parts)) }
    ensures known { IfOk result (λ found. IfOk found (λ parts. (t : TableState)
        → Shows cluster.now t → Shows cluster.now (shown_at replica (names_in parts) t))) }
    ensures keys { IfOk result (λ found. IfOk found
        (All (λ part. part.rows.key ≡ cluster.now.table.schema.key))) }
    ensures refused { IfOk result (λ found. IfErr found (λ why. (t : TableState)
        → Shows cluster.now t → LacksLast t replica why)) }
{
    let quorum = cluster.state().tree().quorum();
    let active = read_parts(alloc, cluster, replica)?;
    let parts = without(alloc, &active, &quorum.pending)?;
    if let Some(last) = quorum.last {
        if !has_cover(&parts, &last) {
            return Ok(Err(Refusal::NotInQuorum(last)));
        }
    }
    Ok(Ok(parts))
}
