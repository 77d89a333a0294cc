//! The rows of parts that a filter keeps, after the mutations that are pending for each.
ghost use Rattle.std.specs.Prelude.{◌≡◌, ◌<◌, ◌≤◌, ◌++◌, ℕ, [], true, map, length, slice_index_or, ◌*◌, IfOk, OnOk};
ghost use Rattle.std.specs.Option.{option_to_list};
ghost use Rattle.std.specs.List.{All};
ghost use Rattle.rmt_values.specs.declared.value.Value.{Value as OneValue};
ghost use Rattle.std.specs.Prelude.{List};
ghost use Rattle.rmt_values.specs.Rows.{key_of};
ghost use Rattle.rmt_history.specs.Mutations.{HasOrder};
ghost use Rattle.rmt_changes.specs.Changes.{applied_all, entries_of};
ghost use Rattle.rmt_changes.specs.Laws.{EntryFits};
ghost use Rattle.rmt_model.specs.Content.{Row as Values};
ghost use Rattle.rmt_query.specs.Answers.{matches as matches_filter, matching};
ghost use Rattle.rmt_query.specs.Explained.{AreInChosen};
ghost use Rattle.rmt_query.specs.ReadRows.{row_read, rows_of_part, rows_read};

use rmt_changes::{due_mutations, keys_stay, pending_row};
use rmt_columns::RowRef;
use rmt_entries::Entry;
use rmt_expr::holds_in;
use rmt_granules::PartData;
use rmt_keyrange::{range_of, select};
use rmt_names::{PartName, data_version};
use rmt_partset::NamedPart;
use rmt_row::Seen;
use rmt_values::{Checked, Row, Schema};
use std::alloc::{AllocError, Global};

/// The matching rows of parts, one part after the other, each row after the mutations that are pending for its part.
pub fn matching_rows<'a>(
    alloc: Global,
    parts: &'a [NamedPart],
    filter: &Option<Checked>,
    schema: &Schema,
    pending: &[Seen<Entry>],
) -> Result<Vec<RowRef<'a>>, AllocError>
    requires parts { All (λ part. part.rows.key ≡ schema.now.key) parts.now }
    requires pending { All (λ token. EntryFits schema.now token.value) pending.now }
    requires order { All (λ token. HasOrder token.value) pending.now }
    ensures { IfOk result (λ rows. rows.items ≡ matching filter.now (rows_read (entries_of pending.now) parts.now)) }
{
    let mut rows = Vec::new(alloc);
    'parts: for part in parts {
        add_matching(alloc, &mut rows, part, filter, schema, pending)?;
    }
    Ok(rows)
}

/// Puts the matching rows of a part at the end. It reads the chosen granules alone.
fn add_matching<'a>(
    alloc: Global,
    rows: &mut Vec<RowRef<'a>>,
    part: &'a NamedPart,
    filter: &Option<Checked>,
    schema: &Schema,
    pending: &[Seen<Entry>],
) -> Result<(), AllocError>
    requires part { part.now.rows.key ≡ schema.now.key }
    requires pending { All (λ token. EntryFits schema.now token.value) pending.now }
    requires order { All (λ token. HasOrder token.value) pending.now }
    ensures { OnOk result (rows.new.items
        ≡ rows.old.items ++ matching filter.now (rows_of_part (entries_of pending.now) part.now)) }
{
    keys_stay();
    let (first, past) = rows_to_read(part.data(), filter, schema)?;
    let due = due_for(alloc, pending, part.name())?;
    'rows: for i in first..past {
        let Some(row) = matching_row(alloc, part, i, filter, &due)? else {
            continue;
        };
        rows.push(row)?;
    }
    Ok(())
}

/// Copies of the tokens, among these, of the mutations that are pending for a part of this name, in the same order.
fn due_for(
    alloc: Global,
    tokens: &[Seen<Entry>],
    name: &PartName,
) -> Result<Vec<Seen<Entry>>, AllocError>
    requires { All (λ token. HasOrder token.value) tokens.now }
    ensures { IfOk result (λ due. (row : Values) → applied_all (entries_of due.items) row
        ≡ row_read (entries_of tokens.now) name.now row) }
{
    let due = due_mutations(alloc, tokens, name.partition(), data_version(name), None)?;
    Ok(due)
}

/// A row after the commands of the tokens that are due for its part, where there is one then and it matches.
fn matching_row<'a>(
    alloc: Global,
    part: &'a NamedPart,
    i: usize,
    filter: &Option<Checked>,
    due: &[Seen<Entry>],
) -> Result<Option<RowRef<'a>>, AllocError>
    requires { i < length part.now.rows.rows }
    ensures { IfOk result (λ row. option_to_list row ≡ matching filter.now
        (option_to_list (applied_all (entries_of due.now) (slice_index_or part.now.rows.rows i [])))) }
{
    let Some(row) = row_after(alloc, part, i, due)? else {
        return Ok(None);
    };
    if matches(filter, &row) {
        Ok(Some(row))
    } else {
        Ok(None)
    }
}

/// A row after the commands of the tokens that are due for its part; none where one of them deletes it. Where none is due it
/// is read where it lies.
fn row_after<'a>(
    alloc: Global,
    part: &'a NamedPart,
    i: usize,
    due: &[Seen<Entry>],
) -> Result<Option<RowRef<'a>>, AllocError>
    requires { i < length part.now.rows.rows }
    ensures { IfOk result (λ row. row ≡ applied_all (entries_of due.now) (slice_index_or part.now.rows.rows i [])) }
{
    if due.is_empty() {
        return Ok(Some(RowRef::held(part.data().data(), i)));
    }
    let row = row_of(part.data(), i)?;
    match pending_row(alloc, due, row)? {
        Some(row) => Ok(Some(RowRef::own(row))),
        None => Ok(None),
    }
}

/// A copy of a row of a part.
fn row_of(part: &PartData, i: usize) -> Result<Row, AllocError>
    requires { i < length part.now.rows }
    ensures { IfOk result (λ row. row ≡ slice_index_or part.now.rows i []) }
{
    match part.row(i)? {
        Some(row) => Ok(row),
        None => unreachable!(),
    }
}

/// Whether the row matches.
fn matches(filter: &Option<Checked>, row: &RowRef<'_>) -> bool
    ensures { result ≡ matches_filter filter.now row.now }
{
    match filter {
        None => true,
        Some(filter) => holds_in(filter, row),
    }
}

/// The rows of the granules that a filter chooses, and no others, from the first to past the last: no row is outside them
/// whose key is that of a row that matches.
fn rows_to_read(
    part: &PartData,
    filter: &Option<Checked>,
    schema: &Schema,
) -> Result<(usize, usize), AllocError>
    requires { part.now.key ≡ schema.now.key }
    ensures order { IfOk result (λ r. r.0 ≤ r.1) }
    ensures bound { IfOk result (λ r. r.1 ≤ length part.now.rows) }
    ensures others { IfOk result (λ r. (i : ℕ) (row : List OneValue) → i < length part.now.rows
        → key_of schema.now.key row ≡ key_of schema.now.key (slice_index_or part.now.rows i [])
        → matches_filter filter.now row ≡ true → (r.0 ≤ i) × (i < r.1)) }
    ensures chosen { IfOk result (AreInChosen filter.now part.now) }
{
    match filter {
        None => Ok((0, part.rows())),
        Some(filter) => {
            let range = range_of(filter, schema)?;
            let (first, past) = select(part, &range);
            let _marks = part.marks();
            Ok(rows_of_granules(part, first, past))
        }
    }
}

/// The rows of granules, from the first to past the last.
fn rows_of_granules(part: &PartData, first: usize, past: usize) -> (usize, usize)
    requires order { first ≤ past }
    requires bound { past ≤ length part.now.marks }
    ensures order { result.0 ≤ result.1 }
    ensures bound { result.1 ≤ length part.now.rows }
    ensures within { (i : ℕ) → i < length part.now.rows → first * part.now.granularity ≤ i
        → i < past * part.now.granularity → (result.0 ≤ i) × (i < result.1) }
    ensures only { (i : ℕ) → result.0 ≤ i → i < result.1
        → (first * part.now.granularity ≤ i) × (i < past * part.now.granularity) }
{
    let _marks = part.marks();
    if first == past {
        return (0, 0);
    }
    match (part.granule(first), part.granule(past - 1)) {
        (Some(begin), Some(end)) => (begin.0, end.1),
        _ => (0, 0),
    }
}
