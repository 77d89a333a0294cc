//! The rows of a part after its pending mutations.
ghost use Rattle.std.specs.Prelude.{◌≡◌, IfOk};
ghost use Rattle.std.specs.List.{All, filter_map};
ghost use Rattle.rmt_model.specs.Content.{changed};
ghost use Rattle.rmt_history.specs.Mutations.{HasOrder};
ghost use Rattle.rmt_changes.specs.Changes.{between};
ghost use Rattle.rmt_changes.specs.Laws.{EntryFits};
ghost use Rattle.rmt_columns.specs.RowsByColumn.{kinds_in};
ghost use Rattle.rmt_part.specs.Lineages.{entries_of};

use rmt_changes::{changed_rows as rows_after, due_mutations};
use rmt_columns::Rows;
use rmt_entries::Entry;
use rmt_granules::PartData;
use rmt_names::PartitionId;
use rmt_row::Seen;
use rmt_values::Schema;
use std::alloc::{AllocError, Global};

/// The rows of a part of a schema, each after the mutations of the tokens that have a number in the partition, above `low` and
/// at most `high`, the first token first. Rows that one of them deletes are left out. Only the commands of these go over the
/// rows.
pub(crate) fn changed_rows(
    alloc: Global,
    body: &PartData,
    tokens: &[Seen<Entry>],
    partition: PartitionId,
    low: u32,
    high: u32,
    schema: &Schema,
) -> Result<Rows, AllocError>
    requires fit { All (λ token. EntryFits schema.now token.value) tokens.now }
    requires order { All (λ token. HasOrder token.value) tokens.now }
    requires kinds { body.now.kinds ≡ kinds_in schema.now.columns }
    ensures rows { IfOk result (λ rows. rows.rows
        ≡ filter_map (changed (entries_of tokens.now) partition (between low high)) body.now.rows) }
    ensures kinds { IfOk result (λ rows. rows.kinds ≡ body.now.kinds) }
{
    let due = due_mutations(alloc, tokens, partition, low, Some(high))?;
    let rows = body.data().copy()?;
    let changed = rows_after(alloc, &due, rows, schema)?;
    Ok(changed)
}
