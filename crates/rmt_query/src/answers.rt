//! Answers of queries.
ghost use Rattle.std.specs.Prelude.{◌≡◌, [], map, IfOk};
ghost use Rattle.std.specs.List.{All};
ghost use Rattle.rmt_partset.specs.Snapshots.{all_rows, data_in};
ghost use Rattle.rmt_history.specs.Mutations.{HasOrder};
ghost use Rattle.rmt_changes.specs.Changes.{entries_of};
ghost use Rattle.rmt_changes.specs.Laws.{EntryFits};
ghost use Rattle.rmt_query.specs.ReadRows.{rows_read};
ghost use Rattle.rmt_query.specs.Cells.{zero_of};
ghost use Rattle.rmt_query.specs.Distinct.{tuple_cmp_at};
ghost use Rattle.rmt_query.specs.Answers.{
  answer_of,
  groups_of,
  matching,
  group_tuples as tuples_of_groups,
  tuple_of as tuple_of_row,
  tuples_of,
  or_zeros as or_zero,
};
ghost use Rattle.std.specs.List.Sorted.{IsSorted};
ghost use Rattle.rmt_values.specs.Rows.{key_cmp};
ghost use Rattle.rmt_values.specs.Order.{in_order};

use crate::cells::{one_cell, zero_cell};
use crate::distinct::{distinct_columns, distinct_places};
use crate::matches::matching_rows;
use crate::runs::tuples_of_runs;
use crate::totals::{are_settled, is_total, total_tuples};
use crate::tuple::{Tuple, compare_at};
use rmt_columns::RowRef;
use rmt_entries::Entry;
use rmt_partset::{NamedPart, Snapshot};
use rmt_row::Seen;
use rmt_values::{CheckedItem, CheckedQuery, Schema};
use std::alloc::{AllocError, Global};

/// The answer of a query of a schema over the rows of a snapshot of its table: the tuples in ascending order, from left
/// to right. Each row is first put through the mutations that are pending for its part: of the entries of `pending`,
/// which are in the order of the log, those that have a number in the part's partition above its data version. Only the
/// granules that the query's filter chooses are read. The mutations are looked up once for each part, and only commands
/// that are pending for it go over its rows. An item that the query names again is compared once. At an error no memory
/// was left.
#[tactic(auto, unfolding(crate::specs::Answers::answer_of))]
pub fn answer(
    alloc: Global,
    snapshot: &Snapshot,
    query: &CheckedQuery,
    schema: &Schema,
    pending: &[Seen<Entry>],
) -> Result<Vec<Tuple>, AllocError>
    requires parts { All (λ part. part.rows.key ≡ schema.now.key) snapshot.now }
    requires pending { All (λ token. EntryFits schema.now token.value) pending.now }
    requires order { All (λ token. HasOrder token.value) pending.now }
    ensures ok { IfOk result (λ tuples. tuples.items
        ≡ answer_of schema.now query.now (rows_read (entries_of pending.now) snapshot.now)) }
    ensures none_pending { pending.now ≡ [] → IfOk result (λ tuples. tuples.items
        ≡ answer_of schema.now query.now (all_rows (data_in snapshot.now))) }
{
    let places = distinct_places(alloc, query.items.as_slice())?;
    let tuples = tuples_read(alloc, snapshot.parts(), query, schema, pending)?;
    let sorted = tuples_sorted(tuples, &places)?;
    Ok(sorted)
}

/// The tuples in the order of their cells at these places; those that tie keep their order.
fn tuples_sorted(tuples: Vec<Tuple>, places: &[usize]) -> Result<Vec<Tuple>, AllocError>
    ensures { IfOk result (λ sorted. sorted.items ≡ in_order (tuple_cmp_at places.now) tuples.items) }
{
    let mut tuples = tuples;
    tuples.sort_by(|a, b| compare_at(places, a, b))?;
    Ok(tuples)
}

/// The tuples of a query over the rows of parts, each after the mutations that are pending for its part. Aggregates over all
/// rows make no list of these.
fn tuples_read(
    alloc: Global,
    parts: &[NamedPart],
    query: &CheckedQuery,
    schema: &Schema,
    pending: &[Seen<Entry>],
) -> Result<Vec<Tuple>, AllocError>
    requires parts { All (λ part. part.rows.key ≡ schema.now.key) parts.now }
    requires pending { All (λ token. EntryFits schema.now token.value) pending.now }
    requires order { All (λ token. HasOrder token.value) pending.now }
    ensures { IfOk result (λ tuples. tuples.items
        ≡ tuples_of schema.now query.now (matching query.now.filter (rows_read (entries_of pending.now) parts.now))) }
{
    if is_total(query) && are_settled(parts, pending) {
        let items = query.items.as_slice();
        let tuples = total_tuples(alloc, parts, items)?;
        let tuples = or_zeros(alloc, tuples, items, &[], schema)?;
        return Ok(tuples);
    }
    let rows = matching_rows(alloc, parts, &query.filter, schema, pending)?;
    let tuples = tuples_over(alloc, rows, query, schema)?;
    Ok(tuples)
}

/// The tuples of a query over the matching rows.
fn tuples_over(
    alloc: Global,
    rows: Vec<RowRef<'_>>,
    query: &CheckedQuery,
    schema: &Schema,
) -> Result<Vec<Tuple>, AllocError>
    ensures { IfOk result (λ tuples. tuples.items ≡ tuples_of schema.now query.now rows.entry.items) }
{
    let (items, group) = (query.items.as_slice(), query.group.as_slice());
    if query.is_grouping() {
        let tuples = group_tuples(alloc, rows, items, group, schema)?;
        Ok(tuples)
    } else {
        let tuples = row_tuples(alloc, &rows, items)?;
        Ok(tuples)
    }
}

/// The tuples of the groups of rows by these columns; one that is named again is compared once.
fn group_tuples(
    alloc: Global,
    rows: Vec<RowRef<'_>>,
    items: &[CheckedItem],
    group: &[u16],
    schema: &Schema,
) -> Result<Vec<Tuple>, AllocError>
    ensures { IfOk result (λ tuples. tuples.items ≡ tuples_of_groups schema.now items.now group.now rows.entry.items) }
{
    let columns = distinct_columns(alloc, group)?;
    let tuples = run_tuples(alloc, rows, items, &columns)?;
    let tuples = or_zeros(alloc, tuples, items, group, schema)?;
    Ok(tuples)
}

/// The tuples of the groups of rows, which are put in the order of the groups' columns first.
fn run_tuples(
    alloc: Global,
    rows: Vec<RowRef<'_>>,
    items: &[CheckedItem],
    columns: &[u16],
) -> Result<Vec<Tuple>, AllocError>
    ensures { IfOk result (λ tuples. tuples.items ≡ map (λ g. g.1) (groups_of items.now columns.now rows.entry.items)) }
{
    let sorted = group_sorted(rows, columns)?;
    let tuples = tuples_of_runs(alloc, &sorted, items, columns)?;
    Ok(tuples)
}

/// The rows in the order of these columns; those that tie keep their order.
fn group_sorted<'a>(rows: Vec<RowRef<'a>>, group: &[u16]) -> Result<Vec<RowRef<'a>>, AllocError>
    ensures order { IfOk result (λ sorted. sorted.items ≡ in_order (key_cmp group.now) rows.entry.items) }
    ensures sorted { IfOk result (λ sorted. IsSorted (key_cmp group.now) sorted.items) }
{
    if group.is_empty() {
        return Ok(rows);
    }
    let mut rows = rows;
    rows.sort_by(|a, b| a.compare_by(group, b))?;
    Ok(rows)
}

/// The tuples of groups; where there are none without GROUP BY, the one over no rows.
fn or_zeros(
    alloc: Global,
    tuples: Vec<Tuple>,
    items: &[CheckedItem],
    group: &[u16],
    schema: &Schema,
) -> Result<Vec<Tuple>, AllocError>
    ensures { IfOk result (λ all. all.items ≡ or_zero group.now (map (λ i. zero_of schema.now i) items.now) tuples.items) }
{
    if !group.is_empty() || !tuples.is_empty() {
        return Ok(tuples);
    }
    let zeros = zero_tuple(alloc, items, schema)?;
    let mut all = tuples;
    all.push(zeros)?;
    Ok(all)
}

/// The tuple over no rows.
fn zero_tuple(alloc: Global, items: &[CheckedItem], schema: &Schema) -> Result<Tuple, AllocError>
    ensures { IfOk result (λ tuple. tuple ≡ map (λ i. zero_of schema.now i) items.now) }
{
    let mut cells = Vec::with_capacity(alloc, items.len())?;
    'items: for item in items {
        cells.push(zero_cell(alloc, *item, schema))?;
    }
    Ok(Tuple::new(cells))
}

/// The tuple of each row.
fn row_tuples(
    alloc: Global,
    rows: &[RowRef<'_>],
    items: &[CheckedItem],
) -> Result<Vec<Tuple>, AllocError>
    ensures { IfOk result (λ tuples. tuples.items ≡ map (tuple_of_row items.now) rows.now) }
{
    let mut tuples = Vec::with_capacity(alloc, rows.len())?;
    'rows: for row in rows {
        let tuple = row_tuple(alloc, row, items)?;
        tuples.push(tuple)?;
    }
    Ok(tuples)
}

/// The tuple of a row.
fn row_tuple(alloc: Global, row: &RowRef<'_>, items: &[CheckedItem]) -> Result<Tuple, AllocError>
    ensures { IfOk result (λ tuple. tuple ≡ tuple_of_row items.now row.now) }
{
    let mut cells = Vec::with_capacity(alloc, items.len())?;
    'items: for item in items {
        let cell = one_cell(alloc, *item, row)?;
        cells.push(cell)?;
    }
    Ok(Tuple::new(cells))
}
