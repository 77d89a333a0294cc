//! What is kept of an id, and the operations that keep it.
ghost use Rattle.std.specs.Prelude.{◌≡◌, ◌++◌, ◌∷◌, [], true, false, IfOk};
ghost use Rattle.std.specs.declared.option.Option.TheVariants.{Some, None};
ghost use Rattle.rmt_names.specs.Texts.{text_of};
ghost use Rattle.rmt_block.specs.Blocks.{IsId};
ghost use Rattle.rmt_tree.specs.declared.op.Op.TheVariants as op;
ghost use Rattle.rmt_znodes.specs.declared.znode.Znode.TheVariants.{Block};
ghost use Rattle.rmt_znodes.specs.Znodes.{znode_path, order_path as path_of_order, id_text as text_of_id};
ghost use Rattle.rmt_table_model.specs.Inserts.{part_of};
ghost use Rattle.rmt_table_model.specs.Nodes.{keep_ops as ops_of_keeping, leave_ops, oldest};
ghost use Rattle.rmt_inserts.specs.Windows.{placed_of};

use crate::kept_block::KeptBlock;
use crate::ops::{create, create_sequential, delete, with_op};
use crate::window::Window;
use rmt_block::{BlockId, id_text};
use rmt_names::{PartName, PartitionId, text};
use rmt_tree::{Op, Path};
use rmt_values::Blob;
use rmt_znodes::{Znode, order_path};
use std::alloc::{AllocError, Global};

/// The part that the block with this id got; `None` where the id isn't kept. It takes no memory.
pub fn kept(window: &Window, id: &BlockId) -> Option<PartName>
    ensures { result ≡ part_of id.now.partition id.now.digest window.now.placed }
{
    window.part(id)
}

/// The operations that keep an id with the part that its block got, and let the oldest kept id go where `limit` of them
/// are kept already. A limit of 0 keeps none.
///
/// At an error no memory was left.
pub fn keep_ops(
    window: &Window,
    alloc: Global,
    id: &BlockId,
    part: &PartName,
    limit: u32,
) -> Result<Vec<Op>, AllocError>
    ensures { IfOk result (λ ops. ops.items
        ≡ ops_of_keeping limit window.now.placed id.now.partition id.now.digest part.now) }
{
    let ops = Vec::new(alloc);
    if limit == 0 {
        return Ok(ops);
    }
    let ops = with_kept(alloc, ops, id, part)?;
    if window.len() < limit as usize {
        return Ok(ops);
    }
    without_oldest(window, alloc, ops)
}

/// The operations, and then those that keep an id. At an error no memory was left.
fn with_kept(
    alloc: Global,
    ops: Vec<Op>,
    id: &BlockId,
    part: &PartName,
) -> Result<Vec<Op>, AllocError>
    ensures { IfOk result (λ all. all.items ≡ ops.items ++ op.Create (znode_path (Block id.now.partition id.now.digest)) (text_of part.now) false None ∷ op.Create path_of_order (text_of_id id.now.partition id.now.digest) true None ∷ []) }
{
    let block = block_op(alloc, id, part)?;
    let ops = with_op(ops, block)?;
    let order = order_op(alloc, id)?;
    with_op(ops, order)
}

/// The operation that makes the node of a kept id, with the part of its block. At an error no memory was left.
fn block_op(alloc: Global, id: &BlockId, part: &PartName) -> Result<Op, AllocError>
    ensures { IfOk result (λ made. made ≡ op.Create (znode_path (Block id.now.partition id.now.digest)) (text_of part.now) false None) }
{
    let path = block_path(alloc, id.partition, id.digest)?;
    let name = text(alloc, part)?;
    Ok(create(path, Blob::new(name.into_bytes())))
}

/// The path of a block's node. At an error no memory was left.
fn block_path(alloc: Global, partition: PartitionId, digest: [u8; 32]) -> Result<Path, AllocError>
    ensures { IfOk result (λ path. path ≡ znode_path (Block partition digest)) }
{
    Znode::Block { partition, digest }.path(alloc)
}

/// The operation that puts a kept id into the order. At an error no memory was left.
fn order_op(alloc: Global, id: &BlockId) -> Result<Op, AllocError>
    ensures { IfOk result (λ made. made ≡ op.Create path_of_order (text_of_id id.now.partition id.now.digest) true None) }
{
    let value = id_value(alloc, id)?;
    let path = order_path(alloc)?;
    Ok(create_sequential(path, value, None))
}

/// The text of an id as data. At an error no memory was left.
fn id_value(alloc: Global, id: &BlockId) -> Result<Blob, AllocError>
    ensures { IfOk result (λ value. value ≡ text_of_id id.now.partition id.now.digest) }
{
    let text = id_text(alloc, id)?;
    let bytes = Vec::from_slice(alloc, text.as_bytes())?;
    Ok(Blob::new(bytes))
}

/// The operations, and then those that let the oldest kept id go. At an error no memory was left.
fn without_oldest(window: &Window, alloc: Global, ops: Vec<Op>) -> Result<Vec<Op>, AllocError>
    ensures { IfOk result (λ all. all.items ≡ ops.items ++ leave_ops (oldest window.now.placed)) }
{
    let count = window.len();
    if count == 0 {
        return Ok(ops);
    }
    let (id, block) = window.at(count - 1);
    without_kept(alloc, ops, id, block)
}

/// The operations, and then those that let a kept id go. At an error no memory was left.
pub(crate) fn without_kept(
    alloc: Global,
    ops: Vec<Op>,
    id: &BlockId,
    block: &KeptBlock,
) -> Result<Vec<Op>, AllocError>
    ensures { IfOk result (λ all. all.items ≡ ops.items ++ leave_ops (Some (placed_of (id.now, block.now)))) }
{
    let path = block_path(alloc, block.part.partition(), id.digest)?;
    let ops = with_op(ops, delete(path))?;
    let order = Znode::OrderOf(block.number).path(alloc)?;
    with_op(ops, delete(order))
}
