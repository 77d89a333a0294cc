//! Rows after the commands of mutations.
ghost use Rattle.std.specs.Prelude.{◌≡◌, IfOk};
ghost use Rattle.rmt_changes.specs.Changes.{applied_all, applied_by, entries_of};

use rmt_entries::Entry;
use rmt_expr::apply;
use rmt_row::Seen;
use rmt_values::Row;
use std::alloc::{AllocError, Global};

/// The row after the commands of some tokens, the first token first; none where one of them deletes it. Entries without a
/// command change nothing. At an error no memory was left, and the row is gone.
pub fn pending_row(alloc: Global, due: &[Seen<Entry>], row: Row) -> Result<Option<Row>, AllocError>
    ensures { IfOk result (λ new. new ≡ applied_all (entries_of due.now) row) }
{
    let mut row = row;
    'tokens: for token in due {
        let Some(new) = row_after(alloc, token.value(), row)? else {
            return Ok(None);
        };
        row = new;
    }
    Ok(Some(row))
}

/// The row after one entry.
fn row_after(alloc: Global, entry: &Entry, row: Row) -> Result<Option<Row>, AllocError>
    ensures { IfOk result (λ new. new ≡ applied_by entry.now row) }
{
    match entry {
        Entry::Mutation { command, .. } => {
            let new = apply(alloc, command, &row)?;
            Ok(new)
        }
        _ => Ok(Some(row)),
    }
}
