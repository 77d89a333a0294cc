//! The operations of calls, and the multi that does them.
ghost use Rattle.std.specs.Prelude.{◌≡◌, ◌<◌, ◌∷◌, ◌++◌, [], length, true, None, Ok, IfOk, OnOk, OnErr};
ghost use Rattle.std.specs.Arc.{arc_value};
ghost use Rattle.std.specs.Fmt.{decimal};
ghost use Rattle.rmt_tree.specs.Ops.{first_refusal, after_all};
ghost use Rattle.rmt_tree.specs.declared.op.Op.TheVariants as op;
ghost use Rattle.rmt_entries.specs.EntryBytes.{entry_bytes, EntryInRange};
ghost use Rattle.rmt_znodes.specs.Znodes.{entry_path as path_of_entries};
ghost use Rattle.rmt_table.specs.TableTrees.{entry_ops as entry_ops_of, token_in};

use crate::entry_log::EntryLog;
use rmt_entries::{Entry, bytes};
use rmt_row::Seen;
use rmt_tree::{MultiError, Op, Path, Tree};
use rmt_values::Blob;
use rmt_znodes::entry_path;
use std::alloc::{AllocError, Global};
use std::sync::Arc;

/// Does these operations, where none of them is refused. At an error no memory was left, and the tree is as it was.
pub(crate) fn multi(tree: &mut Tree, ops: &[Op]) -> Result<(), AllocError>
    requires fine { first_refusal tree.old ops.now 0 ≡ None }
    ensures ok { OnOk result (tree.new ≡ after_all tree.old ops.now) }
    ensures err { OnErr result (tree.new ≡ tree.old) }
{
    match tree.multi(ops) {
        Ok(_) => Ok(()),
        Err(MultiError::Memory) => Err(AllocError),
        Err(MultiError::Refused { .. }) => unreachable!(),
    }
}

/// Deletes a znode, which is there. At an error no memory was left, and the tree is as it was.
pub(crate) fn delete(tree: &mut Tree, alloc: Global, path: Path) -> Result<(), AllocError>
    requires fine { first_refusal tree.old (op.Delete path None ∷ []) 0 ≡ None }
    ensures ok { OnOk result (tree.new ≡ after_all tree.old (op.Delete path None ∷ [])) }
    ensures err { OnErr result (tree.new ≡ tree.old) }
{
    let op = Op::Delete {
        path,
        version: None,
    };
    let ops = vec![in alloc; op]?;
    multi(tree, &ops)
}

/// The operation that writes the next entry of the log. At an error no memory was left.
pub(crate) fn entry_op(alloc: Global, entry: &Entry) -> Result<Op, AllocError>
    requires in_range { EntryInRange entry.now }
    ensures { IfOk result (λ made. made ≡ op.Create path_of_entries (entry_bytes entry.now) true None) }
{
    let path = entry_path(alloc)?;
    let value = bytes(alloc, entry)?;
    Ok(Op::Create {
        path,
        value: Blob::new(value),
        sequential: true,
        owner: None,
    })
}

/// The operation that writes the next entry of the log, alone. At an error no memory was left.
fn entry_ops(alloc: Global, entry: &Entry) -> Result<Vec<Op>, AllocError>
    requires in_range { EntryInRange entry.now }
    ensures { IfOk result (λ ops. ops.items ≡ entry_ops_of entry.now) }
{
    let op = entry_op(alloc, entry)?;
    let ops = vec![in alloc; op]?;
    Ok(ops)
}

/// The operation that writes this entry, the next one of the log. At an error no memory was left.
pub(crate) fn write_op(alloc: Global, entry: Entry) -> Result<Op, AllocError>
    requires in_range { EntryInRange entry }
    ensures { IfOk result (λ made. made ≡ op.Create path_of_entries (entry_bytes entry) true None) }
{
    let write = entry_op(alloc, &entry)?;
    Ok(write)
}

/// A number as decimal digits. At an error no memory was left.
pub(crate) fn number_text(alloc: Global, number: u32) -> Result<Blob, AllocError>
    ensures { IfOk result (λ text. text ≡ decimal number) }
{
    let digits = number.to_string(alloc)?;
    Ok(Blob::new(Vec::from_slice(alloc, digits.as_bytes())?))
}

/// Writes an entry, alone, and puts it into the log. Its token comes back.
///
/// At an error no memory was left, and tree and log are as they were.
pub(crate) fn append_alone(
    tree: &mut Tree,
    log: &mut EntryLog,
    alloc: Global,
    entry: Entry,
) -> Result<Seen<Entry>, AllocError>
    requires in_range { EntryInRange entry }
    requires fine { first_refusal tree.old (entry_ops_of entry) 0 ≡ None }
    requires room { length log.old.tokens < length log.old.row }
    ensures tree { OnOk result (tree.new ≡ after_all tree.old (entry_ops_of entry)) }
    ensures log { IfOk result (λ token. log.new.tokens ≡ log.old.tokens ++ token ∷ []) }
    ensures token { IfOk result (λ token. token ≡ token_in log.old.row (length log.old.tokens) entry) }
    ensures row { log.new.row ≡ log.old.row }
    ensures err_tree { OnErr result (tree.new ≡ tree.old) }
    ensures err_log { OnErr result (log.new.tokens ≡ log.old.tokens) }
{
    let value = Arc::new(alloc, entry)?;
    let ops = entry_ops(alloc, &value)?;
    let token = append_value(tree, log, &ops, value)?;
    Ok(token)
}

/// Does the operations of an entry, and puts the entry into the log. Its token comes back.
///
/// At an error no memory was left, and tree and log are as they were.
pub(crate) fn append(
    tree: &mut Tree,
    log: &mut EntryLog,
    alloc: Global,
    ops: &[Op],
    entry: Entry,
) -> Result<Seen<Entry>, AllocError>
    requires fine { first_refusal tree.old ops.now 0 ≡ None }
    requires room { length log.old.tokens < length log.old.row }
    ensures tree { OnOk result (tree.new ≡ after_all tree.old ops.now) }
    ensures log { IfOk result (λ token. log.new.tokens ≡ log.old.tokens ++ token ∷ []) }
    ensures token { IfOk result (λ token. token ≡ token_in log.old.row (length log.old.tokens) entry) }
    ensures row { log.new.row ≡ log.old.row }
    ensures err_tree { OnErr result (tree.new ≡ tree.old) }
    ensures err_log { OnErr result (log.new.tokens ≡ log.old.tokens) }
{
    let value = Arc::new(alloc, entry)?;
    let token = append_value(tree, log, ops, value)?;
    Ok(token)
}

/// Does the operations of an entry, and puts the entry into the log. Its token comes back.
///
/// At an error no memory was left, and tree and log are as they were: the cell of the log is set after all memory is taken
/// that the operations need, and they are done after it.
pub(crate) fn append_value(
    tree: &mut Tree,
    log: &mut EntryLog,
    ops: &[Op],
    value: Arc<Entry, Global>,
) -> Result<Seen<Entry>, AllocError>
    requires fine { first_refusal tree.old ops.now 0 ≡ None }
    requires room { length log.old.tokens < length log.old.row }
    ensures tree { OnOk result (tree.new ≡ after_all tree.old ops.now) }
    ensures log { IfOk result (λ token. log.new.tokens ≡ log.old.tokens ++ token ∷ []) }
    ensures token { IfOk result (λ token. token ≡ token_in log.old.row (length log.old.tokens) (arc_value value)) }
    ensures row { log.new.row ≡ log.old.row }
    ensures err_tree { OnErr result (tree.new ≡ tree.old) }
    ensures err_log { OnErr result (log.new.tokens ≡ log.old.tokens) }
{
    match tree.multi_after(ops, log, move |log: &mut EntryLog| log.append(value)) {
        Ok(token) => Ok(token),
        Err(MultiError::Memory) => Err(AllocError),
        Err(MultiError::Refused { .. }) => unreachable!(),
    }
}
