//! Aggregates over all rows of parts, which are read where they lie, one column after the other.
ghost use Rattle.std.specs.Prelude.{◌≡◌, ◌<◌, ◌↔◌, ◌++◌, List, [], true, false, nat_lt, length, map, IfOk, IsTrue};
ghost use Rattle.std.specs.List.{All};
ghost use Rattle.std.specs.declared.option.Option.TheVariants.{None};
ghost use Rattle.rmt_values.specs.declared.value.Value.{Value as OneValue};
ghost use Rattle.rmt_values.specs.Aggregates.{is_checked_aggregate, is_grouping};
ghost use Rattle.rmt_names.specs.Names.{data_version as data_version_of};
ghost use Rattle.rmt_history.specs.Mutations.{HasOrder};
ghost use Rattle.rmt_changes.specs.Changes.{any_mutates, entries_of};
ghost use Rattle.rmt_partset.specs.Snapshots.{all_rows, data_in};
ghost use Rattle.rmt_query.specs.Answers.{groups_of};
ghost use Rattle.rmt_query.specs.OverRows.{over};
ghost use Rattle.rmt_query.specs.ReadRows.{rows_read};
ghost use Rattle.rmt_query.specs.Totals.{IsTotal};

use crate::joined_cells::joined;
use crate::runs::cell_over;
use crate::tuple::Tuple;
use rmt_changes::is_pending;
use rmt_columns::Rows;
use rmt_entries::Entry;
use rmt_names::data_version;
use rmt_partset::NamedPart;
use rmt_row::Seen;
use rmt_values::{Cell, CheckedItem, CheckedQuery};
use std::alloc::{AllocError, Global};

/// Whether the query is one of aggregates over all rows: without WHERE, and without GROUP BY.
pub fn is_total(query: &CheckedQuery) -> bool
    ensures filter { result ≡ true → query.now.filter ≡ None }
    ensures group { result ≡ true → query.now.group ≡ [] }
    ensures grouping { result ≡ true → is_grouping is_checked_aggregate query.now.items query.now.group ≡ true }
    ensures none { result ≡ false → query.now.filter ≡ None → query.now.group ≡ []
        → is_grouping is_checked_aggregate query.now.items query.now.group ≡ true → ⊥ }
{
    query.filter.is_none() && query.group.as_slice().is_empty() && query.is_grouping()
}

/// Whether no mutation is pending for any of the parts, so that their rows are read as they lie.
pub fn are_settled(parts: &[NamedPart], pending: &[Seen<Entry>]) -> bool
    requires { All (λ token. HasOrder token.value) pending.now }
    ensures rows { result ≡ true → rows_read (entries_of pending.now) parts.now ≡ all_rows (data_in parts.now) }
    ensures none { result ≡ false → All (λ part. any_mutates part.name.partition
        (λ k. nat_lt (data_version_of part.name) k) pending.now ≡ false) parts.now → ⊥ }
{
    'parts: for part in parts {
        let name = part.name();
        if is_pending(pending, name.partition(), data_version(name)) {
            return false;
        }
    }
    true
}

/// The tuple of aggregates over all rows of parts; none where there are no rows.
pub fn total_tuples(
    alloc: Global,
    parts: &[NamedPart],
    items: &[CheckedItem],
) -> Result<Vec<Tuple>, AllocError>
    ensures { IfOk result (λ tuples. tuples.items
        ≡ map (λ g. g.1) (groups_of items.now [] (all_rows (data_in parts.now)))) }
{
    let mut tuples = Vec::new(alloc);
    if !have_rows(parts) {
        return Ok(tuples);
    }
    let tuple = total_tuple(alloc, parts, items)?;
    tuples.push(tuple)?;
    Ok(tuples)
}

/// Whether any of the parts has a row.
fn have_rows(parts: &[NamedPart]) -> bool
    ensures { IsTrue result ↔ (0 < length (all_rows (data_in parts.now))) }
{
    'parts: for part in parts {
        if part.data().rows() > 0 {
            return true;
        }
    }
    false
}

/// The tuple of aggregates over all rows of parts.
fn total_tuple(
    alloc: Global,
    parts: &[NamedPart],
    items: &[CheckedItem],
) -> Result<Tuple, AllocError>
    requires { 0 < length (all_rows (data_in parts.now)) }
    ensures { IfOk result (λ tuple. tuple ≡ map (λ i. over i (all_rows (data_in parts.now))) items.now) }
{
    let mut cells = Vec::with_capacity(alloc, items.len())?;
    'items: for item in items {
        if let Some(cell) = total_cell(alloc, *item, parts)? {
            cells.push(cell)?;
        }
    }
    Ok(Tuple::new(cells))
}

/// What an item is over all rows of parts; none where there are no rows.
fn total_cell(
    alloc: Global,
    item: CheckedItem,
    parts: &[NamedPart],
) -> Result<Option<Cell>, AllocError>
    ensures { IfOk result (λ total. IsTotal item (all_rows (data_in parts.now)) total) }
{
    let mut total = None;
    'parts: for part in parts {
        total = total_with(alloc, item, total, part.data().data())?;
    }
    Ok(total)
}

/// A total over some rows and these.
fn total_with(
    alloc: Global,
    item: CheckedItem,
    total: Option<Cell>,
    rows: &Rows,
) -> Result<Option<Cell>, AllocError>
    ensures { IfOk result (λ more. (before : List (List OneValue))
        → IsTotal item before total → IsTotal item (before ++ rows.now.rows) more) }
{
    if rows.len() == 0 {
        return Ok(total);
    }
    let cell = cell_over(alloc, item, rows)?;
    match total {
        None => Ok(Some(cell)),
        Some(total) => Ok(Some(joined(item, total, cell)?)),
    }
}
