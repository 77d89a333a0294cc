//! The block numbers of a partition: the counter of its znode.
ghost use Rattle.std.specs.Prelude.{◌≡◌, ℕ, true, Option, IfOk, IfErr, OnOk, OnErr};
ghost use Rattle.std.specs.declared.option.Option.TheVariants.{Some, None};
ghost use Rattle.rmt_tree.specs.Trees.{is_open};
ghost use Rattle.rmt_tree.specs.Ops.{after_all};
ghost use Rattle.rmt_model.specs.BlockNumbers.{next_number as number_after};
ghost use Rattle.rmt_table_model.specs.Numbers.{Nexts, Holders, next_of};
ghost use Rattle.rmt_table_model.specs.Inserts.{HasNumbers};
ghost use Rattle.rmt_table_model.specs.Nodes.{take_ops as ops_of_taking, partition_ops as ops_of_partition, number_ops as ops_of_number};
ghost use Rattle.rmt_inserts.specs.Numbers.{number_limit, partitions_limit, count_limit, IsNumberError};

use crate::number_error::NumberError;
use crate::ops::{create, create_sequential, delete, empty, with_op};
use rmt_names::PartitionId;
use rmt_tree::{MultiError, Op, Session, Tree};
use rmt_values::Limit;
use rmt_znodes::{Znode, is_partition, lock_path};
use std::alloc::{AllocError, Global};

/// The number that a partition gives next; `None` where it doesn't exist. At an error no memory was left.
pub fn next_number(
    tree: &Tree,
    alloc: Global,
    partition: PartitionId,
) -> Result<Option<u32>, AllocError>
    ensures { (next : Nexts) (holders : Holders) → HasNumbers tree.now next holders → IfOk result (λ number. number ≡ next_of next partition) }
{
    let path = Znode::Partition(partition).path(alloc)?;
    match tree.counter(&path) {
        Some(counter) => Ok(u32::try_from(counter).ok()),
        None => Ok(None),
    }
}

/// Takes the next number of a partition for a block, and makes the lock on it, which lives with the session. The partition
/// exists from its first number on.
///
/// At an error the tree is as it was: `LimitReached` has the first limit that the number would pass.
pub fn take_number(
    tree: &mut Tree,
    alloc: Global,
    session: &Session,
    partition: PartitionId,
) -> Result<u32, NumberError>
    requires open { is_open tree.old session.now.number ≡ true }
    requires numbers { (next : Nexts) × (holders : Holders) × HasNumbers tree.old next holders }
    ensures number { (next : Nexts) (holders : Holders) → HasNumbers tree.old next holders → IfOk result (λ number. number ≡ number_after next partition) }
    ensures all { (next : Nexts) (holders : Holders) → HasNumbers tree.old next holders → OnOk result (number_limit next partition ≡ None) }
    ensures ok { (next : Nexts) (holders : Holders) → HasNumbers tree.old next holders → OnOk result (tree.new ≡ after_all tree.old (ops_of_taking partition session.now.number (next_of next partition))) }
    ensures refused { (next : Nexts) (holders : Holders) → HasNumbers tree.old next holders → IfErr result (IsNumberError (number_limit next partition)) }
    ensures err { OnErr result (tree.new ≡ tree.old) }
{
    let next = next_number(tree, alloc, partition)?;
    let number = next.unwrap_or(0);
    if let Some((limit, value)) = first_limit(tree, alloc, next)? {
        return Err(NumberError::LimitReached { limit, value });
    }
    let ops = take_ops(alloc, partition, session.number, next)?;
    is_partition(partition);
    match tree.multi(&ops) {
        Ok(_) => Ok(number),
        Err(MultiError::Refused { .. }) => unreachable!(),
        Err(MultiError::Memory) => Err(NumberError::Memory),
    }
}

/// The first limit that one more number of a partition would pass, given its next one. At an error no memory was left.
fn first_limit(
    tree: &Tree,
    alloc: Global,
    next: Option<u32>,
) -> Result<Option<(Limit, u64)>, AllocError>
    ensures { (numbers : Nexts) (holders : Holders) (p : Option ℕ) → HasNumbers tree.now numbers holders → next ≡ next_of numbers p → IfOk result (λ first. first ≡ number_limit numbers p) }
{
    match next {
        None => partition_limit(tree, alloc),
        Some(number) => Ok(numbers_limit(number)),
    }
}

/// The limit that one more partition would pass. At an error no memory was left.
fn partition_limit(tree: &Tree, alloc: Global) -> Result<Option<(Limit, u64)>, AllocError>
    ensures { (next : Nexts) (holders : Holders) → HasNumbers tree.now next holders → IfOk result (λ first. first ≡ partitions_limit next) }
{
    tree.sound();
    let path = Znode::Numbers.path(alloc)?;
    let Some(names) = tree.children(&path)? else {
        return Ok(None);
    };
    let count = names.len() as u64;
    if count < 1_024 {
        return Ok(None);
    }
    Ok(Some((Limit::Partitions, count)))
}

/// The limit that one more number of a partition would pass.
fn numbers_limit(number: u32) -> Option<(Limit, u64)>
    ensures { result ≡ count_limit number }
{
    if number < 65_536 {
        return None;
    }
    Some((Limit::Numbers, u64::from(number)))
}

/// The operations that take the next number of a partition for a session. At an error no memory was left.
fn take_ops(
    alloc: Global,
    partition: PartitionId,
    session: u64,
    next: Option<u32>,
) -> Result<Vec<Op>, AllocError>
    ensures { IfOk result (λ ops. ops.items ≡ ops_of_taking partition session next) }
{
    let ops = partition_ops(alloc, partition, next)?;
    let path = lock_path(alloc, partition)?;
    with_op(ops, create_sequential(path, empty(alloc), Some(session)))
}

/// The operation that makes a partition, where there is no next number of it. At an error no memory was left.
fn partition_ops(
    alloc: Global,
    partition: PartitionId,
    next: Option<u32>,
) -> Result<Vec<Op>, AllocError>
    ensures { IfOk result (λ ops. ops.items ≡ ops_of_partition partition next) }
{
    if next.is_some() {
        return Ok(Vec::new(alloc));
    }
    let path = Znode::Partition(partition).path(alloc)?;
    with_op(Vec::new(alloc), create(path, empty(alloc)))
}

/// The operations that take the next number of a partition without leaving a lock. At an error no memory was left.
pub fn number_ops(tree: &Tree, alloc: Global, partition: PartitionId) -> Result<Vec<Op>, AllocError>
    ensures { (next : Nexts) (holders : Holders) (number : ℕ) → HasNumbers tree.now next holders → next_of next partition ≡ Some number → IfOk result (λ ops. ops.items ≡ ops_of_number partition number) }
{
    let path = lock_path(alloc, partition)?;
    let number = next_number(tree, alloc, partition)?.unwrap_or(0);
    let lock = Znode::Lock { partition, number }.path(alloc)?;
    let ops = with_op(Vec::new(alloc), create_sequential(path, empty(alloc), None))?;
    with_op(ops, delete(lock))
}
