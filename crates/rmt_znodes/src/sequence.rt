//! The paths below which sequential znodes get their numbers.
ghost use Rattle.std.specs.Prelude.{◌≡◌, IfOk};
ghost use Rattle.rmt_znodes.specs.Znodes.{entry_path as path_of_entries, order_path as path_of_order, lock_path as path_of_locks};

use crate::branch::{partition_path, top_path};
use rmt_names::PartitionId;
use rmt_tree::Path;
use std::alloc::{AllocError, Global};

/// The path below which an entry of the log gets its place. At an error no memory was left.
pub fn entry_path(alloc: Global) -> Result<Path, AllocError>
    ensures { IfOk result (λ path. path ≡ path_of_entries) }
{
    top_path(alloc, "/log")?.child(alloc, b"log-")
}

/// The path below which a kept id gets its number in the order. At an error no memory was left.
pub fn order_path(alloc: Global) -> Result<Path, AllocError>
    ensures { IfOk result (λ path. path ≡ path_of_order) }
{
    top_path(alloc, "/blocks_order")?.child(alloc, b"id-")
}

/// The path below which the lock on a partition's next block number is made. At an error no memory was left.
pub fn lock_path(alloc: Global, partition: PartitionId) -> Result<Path, AllocError>
    ensures { IfOk result (λ path. path ≡ path_of_locks partition) }
{
    partition_path(alloc, partition)?.child(alloc, b"block-")
}
