//! INSERT of blocks.
ghost use Rattle.std.specs.Prelude.{◌≡◌, ◌≢◌, length, map, true, false, IfOk, OnErr};
ghost use Rattle.std.specs.List.{All};
ghost use Rattle.rmt_values.specs.Rows.{fits};
ghost use Rattle.rmt_events.specs.Clusters.{without_kinds};
ghost use Rattle.rmt_state.specs.States.{IsNumber};
ghost use Rattle.rmt_statement_model.specs.TableStates.{TableState};
ghost use Rattle.rmt_statement_model.specs.Inserts.{InsertsAll, asked_at};
ghost use Rattle.rmt_statement_model.specs.Shows.{IsIdle, Shows, Leads, KeepsUps, ups};
ghost use Rattle.rmt_acts.specs.StatementEvents.{InsertEvents, StopsAfter};

use crate::attempt::insert_block;
use crate::insertion::Insertion;
use crate::outcome::Outcome;
use rmt_block::Block;
use rmt_cluster::Cluster;
use rmt_list::List;
use rmt_values::ReplicaId;
use std::alloc::{AllocError, Global};

/// Inserts blocks at a replica, one after the other, until one is refused. Where two replicas or more are asked for, others that
/// are up and may fetch copy each block, in the order of their numbers, until so many have it; where too few do, the block stays in
/// and its part waits. What went in stays. At an error no memory was left: some of the blocks went in, and the next one may be
/// halfway.
pub fn insert_blocks(
    alloc: Global,
    cluster: &mut Cluster,
    replica: ReplicaId,
    blocks: Vec<Block>,
    need: u32,
) -> Result<Insertion, AllocError>
    requires here { IsNumber replica (length cluster.old.replicas) }
    requires idle { IsIdle cluster.old replica }
    requires need { need ≢ 1 }
    requires fit { All (λ b. All (λ row. fits cluster.old.table.schema.columns row ≡ true) b.rows)
        blocks.items }
    ensures inserts { IfOk result (λ i. (t : TableState) → Shows cluster.old t → Leads cluster.new
        (InsertsAll false (ups cluster.old) t (asked_at replica need) (map without_kinds blocks.items)
        i.pieces i.refused)) }
    ensures idle { IfOk result (λ _. IsIdle cluster.new replica) }
    ensures events { IfOk result (λ i.
        InsertEvents cluster.old (asked_at replica need) i.pieces i.refused cluster.new) }
    ensures err { OnErr result (StopsAfter cluster.old cluster.new) }
    ensures keeps { KeepsUps cluster.old result cluster.new }
{
    let mut pieces = Vec::new(alloc);
    'inserts: for block in blocks {
        match insert_block(alloc, cluster, replica, block, need)? {
            Outcome::Inserted(piece) => pieces.push(piece)?,
            Outcome::Refused(refusal) => {
                let (pieces, refused) = (List::new(pieces), Some(refusal));
                return Ok(Insertion { pieces, refused });
            }
        }
    }
    let (pieces, refused) = (List::new(pieces), None);
    Ok(Insertion { pieces, refused })
}
