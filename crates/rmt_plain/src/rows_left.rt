//! The rows of a block that drops and mutations leave.
ghost use Rattle.std.specs.Prelude.{◌≡◌, ◌++◌, filter_map, IfOk, OnOk};
ghost use Rattle.rmt_plain.specs.PlainRows.{is_above as has_above, changed_by, changed as changed_row, takes as takes_block, is_taken as is_taken_by, rows_left};

use crate::accepted::Accepted;
use rmt_expr::apply;
use rmt_names::PartitionId;
use rmt_values::Row;
use std::alloc::{AllocError, Global};

/// Adds the rows that one of all that was accepted leaves, after which these came.
pub(crate) fn push_rows(
    alloc: Global,
    rows: &mut Vec<Row>,
    all: &[Accepted],
    next: &Accepted,
    later: &[Accepted],
) -> Result<(), AllocError>
    ensures { OnOk result (rows.new.items ≡ rows.old.items ++ rows_left all.now next.now later.now) }
{
    let Accepted::Block {
        partition,
        number,
        rows: block,
    } = next
    else {
        return Ok(());
    };
    if is_taken(later, *partition, *number) {
        return Ok(());
    }
    push_changed(alloc, rows, all, *partition, *number, block.as_slice())?;
    Ok(())
}

/// Whether one of these is a drop that takes block `number` of the partition away.
fn is_taken(later: &[Accepted], partition: PartitionId, number: u32) -> bool
    ensures { result ≡ is_taken_by later.now partition number }
{
    'later: for next in later {
        if takes(next, partition, number) {
            return true;
        }
    }
    false
}

/// Whether it is a drop that takes block `number` of the partition away.
fn takes(next: &Accepted, partition: PartitionId, number: u32) -> bool
    ensures { result ≡ takes_block next.now partition number }
{
    match next {
        Accepted::DropRange {
            partition: dropped,
            number: upto,
        } => *dropped == partition && number < *upto,
        Accepted::Block { .. } | Accepted::Mutation { .. } => false,
    }
}

/// Adds the rows of block `number` of the partition, each after the mutations.
fn push_changed(
    alloc: Global,
    rows: &mut Vec<Row>,
    all: &[Accepted],
    partition: PartitionId,
    number: u32,
    block: &[Row],
) -> Result<(), AllocError>
    ensures { OnOk result (rows.new.items ≡ rows.old.items ++ filter_map (changed_row all.now partition number) block.now) }
{
    'rows: for row in block {
        let Some(new) = changed(alloc, all, partition, number, row)? else {
            continue;
        };
        rows.push(new)?;
    }
    Ok(())
}

/// A row of block `number` of the partition after the mutations; none where one deletes it.
fn changed(
    alloc: Global,
    all: &[Accepted],
    partition: PartitionId,
    number: u32,
    row: &Row,
) -> Result<Option<Row>, AllocError>
    ensures { IfOk result (λ new. new ≡ changed_row all.now partition number row.now) }
{
    let mut row = row.copy()?;
    'accepted: for next in all {
        let Some(new) = after(alloc, next, partition, number, row)? else {
            return Ok(None);
        };
        row = new;
    }
    Ok(Some(row))
}

/// The row after one of them.
fn after(
    alloc: Global,
    next: &Accepted,
    partition: PartitionId,
    number: u32,
    row: Row,
) -> Result<Option<Row>, AllocError>
    ensures { IfOk result (λ new. new ≡ changed_by next.now partition number row) }
{
    match next {
        Accepted::Mutation { numbers, command } => {
            if is_above(numbers.as_slice(), partition, number) {
                let new = apply(alloc, command, &row)?;
                return Ok(new);
            }
            Ok(Some(row))
        }
        Accepted::Block { .. } | Accepted::DropRange { .. } => Ok(Some(row)),
    }
}

/// Whether a mutation of these numbers has one in the partition above `number`.
fn is_above(numbers: &[(PartitionId, u32)], partition: PartitionId, number: u32) -> bool
    ensures { result ≡ has_above numbers.now partition number }
{
    'numbers: for pair in numbers {
        if pair.0 == partition && number < pair.1 {
            return true;
        }
    }
    false
}
