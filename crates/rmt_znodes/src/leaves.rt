//! Paths of the znodes that have none below them.
ghost use Rattle.std.specs.Prelude.{◌≡◌, IfOk};
ghost use Rattle.rmt_znodes.specs.declared.znode.Znode.TheVariants.{LogEntry, OrderOf, Lock, Status, LastPart, LogPointer, IsActive};
ghost use Rattle.rmt_znodes.specs.Znodes.{znode_path};

use crate::branch::{replica_path, top_path};
use crate::sequence::{entry_path, lock_path, order_path};
use rmt_names::PartitionId;
use rmt_tree::Path;
use rmt_values::ReplicaId;
use std::alloc::{AllocError, Global};

/// The path of an entry of the log. At an error no memory was left.
pub(crate) fn log_entry_path(alloc: Global, place: u32) -> Result<Path, AllocError>
    ensures { IfOk result (λ path. path ≡ znode_path (LogEntry place)) }
{
    entry_path(alloc)?.numbered(alloc, place)
}

/// The path of a kept id in the order.
pub(crate) fn order_of_path(alloc: Global, number: u32) -> Result<Path, AllocError>
    ensures { IfOk result (λ path. path ≡ znode_path (OrderOf number)) }
{
    order_path(alloc)?.numbered(alloc, number)
}

/// The path of a lock.
pub(crate) fn numbered_lock_path(
    alloc: Global,
    partition: PartitionId,
    number: u32,
) -> Result<Path, AllocError>
    ensures { IfOk result (λ path. path ≡ znode_path (Lock partition number)) }
{
    lock_path(alloc, partition)?.numbered(alloc, number)
}

/// The path of the part that waits for its quorum.
pub(crate) fn status_path(alloc: Global) -> Result<Path, AllocError>
    ensures { IfOk result (λ path. path ≡ znode_path Status) }
{
    top_path(alloc, "/quorum")?.child(alloc, b"status")
}

/// The path of the last part whose quorum was met.
pub(crate) fn last_part_path(alloc: Global) -> Result<Path, AllocError>
    ensures { IfOk result (λ path. path ≡ znode_path LastPart) }
{
    top_path(alloc, "/quorum")?.child(alloc, b"last_part")
}

/// The path of a replica's log pointer.
pub(crate) fn log_pointer_path(alloc: Global, replica: ReplicaId) -> Result<Path, AllocError>
    ensures { IfOk result (λ path. path ≡ znode_path (LogPointer replica)) }
{
    replica_path(alloc, replica)?.child(alloc, b"log_pointer")
}

/// The path of the mark that a replica is active.
pub(crate) fn is_active_path(alloc: Global, replica: ReplicaId) -> Result<Path, AllocError>
    ensures { IfOk result (λ path. path ≡ znode_path (IsActive replica)) }
{
    replica_path(alloc, replica)?.child(alloc, b"is_active")
}
