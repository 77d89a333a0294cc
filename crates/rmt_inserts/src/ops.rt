//! Lists of operations.
ghost use Rattle.std.specs.Prelude.{◌≡◌, ◌++◌, ◌∷◌, [], true, false, IfOk};
ghost use Rattle.std.specs.declared.option.Option.TheVariants.{None};
ghost use Rattle.rmt_tree.specs.declared.op.Op.TheVariants as op;

use rmt_tree::{Op, Path};
use rmt_values::Blob;
use std::alloc::{AllocError, Global};

/// The operations, and this one after them.
pub(crate) fn with_op(ops: Vec<Op>, op: Op) -> Result<Vec<Op>, AllocError>
    ensures { IfOk result (λ all. all.items ≡ ops.items ++ op ∷ []) }
{
    let mut ops = ops;
    ops.push(op)?;
    Ok(ops)
}

/// Creates a node.
pub(crate) fn create(path: Path, value: Blob) -> Op
    ensures { result ≡ op.Create path value false None }
{
    Op::Create {
        path,
        value,
        sequential: false,
        owner: None,
    }
}

/// Creates a node that gets a number.
pub(crate) fn create_sequential(path: Path, value: Blob, owner: Option<u64>) -> Op
    ensures { result ≡ op.Create path value true owner }
{
    Op::Create {
        path,
        value,
        sequential: true,
        owner,
    }
}

/// No data.
pub(crate) fn empty(alloc: Global) -> Blob
    ensures { result ≡ [] }
{
    Blob::new(Vec::new(alloc))
}

/// Deletes a node, whatever its version.
pub(crate) fn delete(path: Path) -> Op
    ensures { result ≡ op.Delete path None }
{
    Op::Delete {
        path,
        version: None,
    }
}
