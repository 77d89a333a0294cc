//! Paths that begin with a text and go on with numbers and ids.
ghost use Rattle.std.specs.Prelude.{◌≡◌, List, ℕ, [], ◌∷◌, IfOk};
ghost use Rattle.rmt_paths.specs.Paths.{IsName, path_text};
ghost use Rattle.rmt_znodes.specs.declared.znode.Znode.TheVariants.{Block, Partition, Replica, MutationNode};
ghost use Rattle.rmt_znodes.specs.Znodes.{znode_path};

use crate::ranges::{is_id, is_partition};
use rmt_block::{BlockId, id_text};
use rmt_names::{PartitionId, partition_text};
use rmt_paths::laws::one_spelling;
use rmt_paths::ten_digits;
use rmt_tree::Path;
use rmt_values::ReplicaId;
use std::alloc::{AllocError, Global};

/// The path of a text of one name. At an error no memory was left.
pub(crate) fn top_path(alloc: Global, text: &str) -> Result<Path, AllocError>
    ensures { IfOk result (λ path. (name : List ℕ) → IsName name → text.now ≡ path_text (name ∷ []) → path ≡ name ∷ []) }
{
    one_spelling();
    match Path::new(alloc, text) {
        Ok(path) => Ok(path),
        Err(_) => Err(AllocError),
    }
}

/// The path of a block whose id is kept.
pub(crate) fn block_path(
    alloc: Global,
    partition: PartitionId,
    digest: [u8; 32],
) -> Result<Path, AllocError>
    ensures { IfOk result (λ path. path ≡ znode_path (Block partition digest)) }
{
    let id = BlockId { partition, digest };
    is_id(&id);
    let text = id_text(alloc, &id)?;
    top_path(alloc, "/blocks")?.child(alloc, text.as_bytes())
}

/// The path of a partition.
pub(crate) fn partition_path(alloc: Global, partition: PartitionId) -> Result<Path, AllocError>
    ensures { IfOk result (λ path. path ≡ znode_path (Partition partition)) }
{
    is_partition(partition);
    let text = partition_text(alloc, partition)?;
    top_path(alloc, "/block_numbers")?.child(alloc, text.as_bytes())
}

/// The path of a replica.
pub(crate) fn replica_path(alloc: Global, replica: ReplicaId) -> Result<Path, AllocError>
    ensures { IfOk result (λ path. path ≡ znode_path (Replica replica)) }
{
    let text = replica.to_string(alloc)?;
    top_path(alloc, "/replicas")?.child(alloc, text.as_bytes())
}

/// The path of a mutation.
pub(crate) fn mutation_path(alloc: Global, id: u32) -> Result<Path, AllocError>
    ensures { IfOk result (λ path. path ≡ znode_path (MutationNode id)) }
{
    let digits = ten_digits(id);
    top_path(alloc, "/mutations")?.child(alloc, &digits)
}
