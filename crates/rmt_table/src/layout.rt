//! The znodes that every table has, and those of its replicas.
ghost use Rattle.std.specs.Prelude.{◌≡◌, ◌-◌, ◌≤◌, ◌∷◌, ◌++◌, [], false, None, IfOk, OnOk};
ghost use Rattle.rmt_tree.specs.declared.op.Op.TheVariants as op;
ghost use Rattle.rmt_znodes.specs.Znodes.{znode_path};
ghost use Rattle.rmt_table_model.specs.Nodes.{fixed_ops as ops_of_fixed, replica_ops as ops_of_replica, new_ops as ops_of_new};

use rmt_tree::Op;
use rmt_values::{Blob, ReplicaId};
use rmt_znodes::Znode;
use std::alloc::{AllocError, Global};

/// The operation that makes a znode with this data. At an error no memory was left.
fn create(alloc: Global, znode: Znode, value: Vec<u8>) -> Result<Op, AllocError>
    ensures { IfOk result (λ made. made ≡ op.Create (znode_path znode) value.items false None) }
{
    let path = znode.path(alloc)?;
    Ok(Op::Create {
        path,
        value: Blob::new(value),
        sequential: false,
        owner: None,
    })
}

/// Adds the operation that makes a znode without data. At an error no memory was left.
fn push_empty(ops: &mut Vec<Op>, alloc: Global, znode: Znode) -> Result<(), AllocError>
    ensures { OnOk result (ops.new.items ≡ ops.old.items ++ op.Create (znode_path znode) [] false None ∷ []) }
{
    let made = create(alloc, znode, Vec::new(alloc))?;
    ops.push(made)?;
    Ok(())
}

/// The operations that make the znodes of every table. At an error no memory was left.
fn fixed_ops(alloc: Global) -> Result<Vec<Op>, AllocError>
    ensures { IfOk result (λ ops. ops.items ≡ ops_of_fixed) }
{
    let mut ops = Vec::new(alloc);
    push_empty(&mut ops, alloc, Znode::Log)?;
    push_empty(&mut ops, alloc, Znode::Blocks)?;
    push_empty(&mut ops, alloc, Znode::Order)?;
    push_empty(&mut ops, alloc, Znode::Numbers)?;
    push_empty(&mut ops, alloc, Znode::Mutations)?;
    push_empty(&mut ops, alloc, Znode::Quorum)?;
    push_empty(&mut ops, alloc, Znode::Replicas)?;
    Ok(ops)
}

/// Adds the operations that make the znodes of a replica. At an error no memory was left.
fn push_replica(ops: &mut Vec<Op>, alloc: Global, replica: ReplicaId) -> Result<(), AllocError>
    requires first { 1 ≤ replica }
    ensures { OnOk result (ops.new.items ≡ ops.old.items ++ ops_of_replica (replica - 1)) }
{
    push_empty(ops, alloc, Znode::Replica(replica))?;
    let zero = Vec::from_slice(alloc, b"0")?;
    let made = create(alloc, Znode::LogPointer(replica), zero)?;
    ops.push(made)?;
    Ok(())
}

/// The operations that make the znodes of a new table of so many replicas. At an error no memory was left.
pub(crate) fn new_ops(alloc: Global, replicas: u8) -> Result<Vec<Op>, AllocError>
    ensures { IfOk result (λ ops. ops.items ≡ ops_of_new replicas) }
{
    let mut ops = fixed_ops(alloc)?;
    let mut made: ReplicaId = 0;
    'replicas: while made < replicas {
        made += 1;
        push_replica(&mut ops, alloc, made)?;
    }
    Ok(ops)
}
