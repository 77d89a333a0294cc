//! Copies of the commands of mutations.
ghost use Rattle.std.specs.Prelude.{◌≡◌, IfOk};

use rmt_list::List;
use rmt_values::{CheckedMutation, CheckedRight};
use std::alloc::{AllocError, Global};

/// A copy of what an UPDATE sets a column to.
fn copy_right(right: &CheckedRight) -> Result<CheckedRight, AllocError>
    ensures { IfOk result (λ other. other ≡ right.now) }
{
    match right {
        CheckedRight::Literal(value) => Ok(CheckedRight::Literal(value.copy()?)),
        CheckedRight::Column(column) => Ok(CheckedRight::Column(*column)),
        CheckedRight::Plus { column, by } => Ok(CheckedRight::Plus {
            column: *column,
            by: by.copy()?,
        }),
        CheckedRight::Minus { column, by } => Ok(CheckedRight::Minus {
            column: *column,
            by: by.copy()?,
        }),
    }
}

/// A copy of what an UPDATE sets.
fn copy_sets(
    alloc: Global,
    sets: &[(u16, CheckedRight)],
) -> Result<Vec<(u16, CheckedRight)>, AllocError>
    ensures { IfOk result (λ other. other.items ≡ sets.now) }
{
    let mut copied = Vec::with_capacity(alloc, sets.len())?;
    'sets: for set in sets {
        copied.push((set.0, copy_right(&set.1)?))?;
    }
    Ok(copied)
}

/// A copy of a command. At an error no memory was left.
pub fn copy_command(alloc: Global, command: &CheckedMutation) -> Result<CheckedMutation, AllocError>
    ensures { IfOk result (λ other. other ≡ command.now) }
{
    match command {
        CheckedMutation::Update { sets, filter } => Ok(CheckedMutation::Update {
            sets: List::new(copy_sets(alloc, sets.as_slice())?),
            filter: filter.copy(alloc)?,
        }),
        CheckedMutation::Delete { filter } => Ok(CheckedMutation::Delete {
            filter: filter.copy(alloc)?,
        }),
    }
}
