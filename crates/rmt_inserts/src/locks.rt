//! The locks on the numbers of blocks in flight.
ghost use Rattle.std.specs.Prelude.{IfOk};
ghost use Rattle.rmt_table_model.specs.Numbers.{Nexts, Holders};
ghost use Rattle.rmt_table_model.specs.Inserts.{HasNumbers, IsLeastLocked};

use crate::names::number_of;
use rmt_names::PartitionId;
use rmt_tree::Tree;
use rmt_znodes::Znode;
use std::alloc::{AllocError, Global};

/// The least number of a partition from `from` to `to`, both among them, that is in flight. At an error no memory was left.
pub fn in_flight(
    tree: &Tree,
    alloc: Global,
    partition: PartitionId,
    from: u32,
    to: u32,
) -> Result<Option<u32>, AllocError>
    ensures { (next : Nexts) (holders : Holders) → HasNumbers tree.now next holders → IfOk result (IsLeastLocked holders partition from to) }
{
    let low = Znode::Lock {
        partition,
        number: from,
    }
    .path(alloc)?;
    let Some(name) = tree.child_from(&low) else {
        return Ok(None);
    };
    match number_of(name) {
        Some(number) if number <= to => Ok(Some(number)),
        _ => Ok(None),
    }
}
