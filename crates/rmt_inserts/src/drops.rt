//! What a drop takes away of the locks and of the kept ids.
ghost use Rattle.std.specs.Prelude.{◌≡◌, ◌++◌, ◌∷◌, [], ◌<◌, ◌^◌, ℕ, length, Some, IfOk, slice_get};
ghost use Rattle.rmt_znodes.specs.Znodes.{lock_name};
ghost use Rattle.rmt_table_model.specs.Numbers.{Nexts, Holders};
ghost use Rattle.rmt_table_model.specs.Kept.{Placed};
ghost use Rattle.rmt_table_model.specs.Inserts.{HasNumbers, AreDropOps};
ghost use Rattle.rmt_table_model.specs.Nodes.{forget_ops};
ghost use Rattle.rmt_inserts.specs.Unlocks.{unlock_below, AreUnlockOps};

use crate::kept_ids::without_kept;
use crate::names::number_of;
use crate::ops::{delete, with_op};
use crate::window::{Window, spares};
use rmt_names::PartitionId;
use rmt_tree::{Op, Tree};
use rmt_znodes::Znode;
use std::alloc::{AllocError, Global};

/// The operations that remove the locks of a partition below a number, and the kept ids of its blocks below it. At an error
/// no memory was left.
pub fn drop_ops(
    window: &Window,
    tree: &Tree,
    alloc: Global,
    partition: PartitionId,
    below: u32,
) -> Result<Vec<Op>, AllocError>
    ensures { (next : Nexts) (holders : Holders) → HasNumbers tree.now next holders
        → IfOk result (λ ops. AreDropOps holders window.now.placed partition below ops.items) }
{
    let ops = unlock_ops(tree, alloc, partition, below)?;
    without_dropped(window, alloc, ops, partition, below)
}

/// The operations that remove the locks of a partition below a number. At an error no memory was left.
fn unlock_ops(
    tree: &Tree,
    alloc: Global,
    partition: PartitionId,
    below: u32,
) -> Result<Vec<Op>, AllocError>
    ensures { (next : Nexts) (holders : Holders) → HasNumbers tree.now next holders → IfOk result (λ ops. AreUnlockOps holders partition below ops.items) }
{
    let path = Znode::Partition(partition).path(alloc)?;
    let mut ops = Vec::new(alloc);
    let Some(names) = tree.children(&path)? else {
        return Ok(ops);
    };
    'names: for name in &names {
        ops = without_lock(alloc, ops, partition, below, name.as_bytes())?;
    }
    Ok(ops)
}

/// The operations, and then the one that removes the lock of this name where its number is below the other.
fn without_lock(
    alloc: Global,
    ops: Vec<Op>,
    partition: PartitionId,
    below: u32,
    name: &[u8],
) -> Result<Vec<Op>, AllocError>
    ensures { (n : ℕ) → n < 2 ^ 32 → name.now ≡ lock_name n → IfOk result (λ all. all.items ≡ ops.items ++ unlock_below partition below n) }
{
    let Some(number) = number_of(name) else {
        return Ok(ops);
    };
    if number >= below {
        return Ok(ops);
    }
    let lock = Znode::Lock { partition, number }.path(alloc)?;
    with_op(ops, delete(lock))
}

/// The operations, and then those that let the kept ids of a partition's blocks below a number go. At an error no memory was
/// left.
fn without_dropped(
    window: &Window,
    alloc: Global,
    ops: Vec<Op>,
    partition: PartitionId,
    below: u32,
) -> Result<Vec<Op>, AllocError>
    ensures { IfOk result (λ all. all.items ≡ ops.items ++ forget_ops partition below window.now.placed) }
{
    let mut all = ops;
    'kept: for i in 0..window.len() {
        all = without_dropped_at(window, alloc, all, partition, below, i)?;
    }
    Ok(all)
}

/// The operations, and then those that let the kept id at a place go, counted from the newest, where its block is dropped.
/// At an error no memory was left.
fn without_dropped_at(
    window: &Window,
    alloc: Global,
    ops: Vec<Op>,
    partition: PartitionId,
    below: u32,
    i: usize,
) -> Result<Vec<Op>, AllocError>
    requires within { i < length window.now.placed }
    ensures { (k : Placed) → slice_get window.now.placed i ≡ Some k
        → IfOk result (λ all. all.items ≡ ops.items ++ forget_ops partition below (k ∷ [])) }
{
    let (id, block) = window.at(i);
    if spares(&block.part, partition, below) {
        return Ok(ops);
    }
    without_kept(alloc, ops, id, block)
}
