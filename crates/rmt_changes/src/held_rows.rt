//! Rows held by column after the commands of mutations.
ghost use Rattle.std.specs.Prelude.{◌≡◌, IfOk};
ghost use Rattle.std.specs.List.{All, filter_map};
ghost use Rattle.rmt_columns.specs.RowsByColumn.{kinds_in};
ghost use Rattle.rmt_changes.specs.Changes.{applied_all, applied_by, entries_of};
ghost use Rattle.rmt_changes.specs.Laws.{EntryFits};

use rmt_columns::Rows;
use rmt_entries::Entry;
use rmt_expr::apply_to;
use rmt_row::Seen;
use rmt_values::Schema;
use std::alloc::{AllocError, Global};

/// The rows after the commands of some tokens, the first token first: rows that one of them deletes are left out. Entries
/// without a command change nothing. At an error no memory was left.
pub fn changed_rows(
    alloc: Global,
    due: &[Seen<Entry>],
    rows: Rows,
    schema: &Schema,
) -> Result<Rows, AllocError>
    requires fit { All (λ token. EntryFits schema.now token.value) due.now }
    requires kinds { rows.kinds ≡ kinds_in schema.now.columns }
    ensures rows { IfOk result (λ new. new.rows ≡ filter_map (applied_all (entries_of due.now)) rows.rows) }
    ensures kinds { IfOk result (λ new. new.kinds ≡ rows.kinds) }
{
    let mut rows = rows;
    'tokens: for token in due {
        rows = rows_after(alloc, token.value(), rows, schema)?;
    }
    Ok(rows)
}

/// The rows after one entry.
fn rows_after(alloc: Global, entry: &Entry, rows: Rows, schema: &Schema) -> Result<Rows, AllocError>
    requires fit { EntryFits schema.now entry.now }
    requires kinds { rows.kinds ≡ kinds_in schema.now.columns }
    ensures rows { IfOk result (λ new. new.rows ≡ filter_map (applied_by entry.now) rows.rows) }
    ensures kinds { IfOk result (λ new. new.kinds ≡ rows.kinds) }
{
    match entry {
        Entry::Mutation { command, .. } => apply_to(alloc, command, rows, schema),
        _ => Ok(rows),
    }
}
