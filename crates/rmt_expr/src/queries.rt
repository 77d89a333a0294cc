//! Checks queries against a schema.
ghost use Rattle.std.specs.Prelude.{◌≡◌, ◌⊎◌, IfOk, IfErr};
ghost use Rattle.std.specs.Option.{option_map};
ghost use Rattle.std.specs.declared.option.Option.TheVariants.{Some, None};
ghost use Rattle.rmt_values.specs.Schemas.{names_of};
ghost use Rattle.rmt_expr.specs.Checks.{unknown_name};
ghost use Rattle.rmt_expr.specs.Queries.{
  IsAt,
  IsItem,
  AreItems,
  IsSelectList,
  ArePlaces,
  IsFiltered,
  IsCheckedQuery,
  all_from,
  unknown_item,
  unknown_in_items,
  unknown_in_names,
  unknown_in_where,
  type_error_in_where,
  type_error_of_item,
  type_error_in_items,
  ungrouped as first_ungrouped,
  type_error_in_select_list,
  adds_up as adds,
  query_refusal,
};
ghost use Rattle.rmt_values.specs.Rows.{kind_named};
ghost use Rattle.rmt_expr.specs.declared.check_error.CheckError.TheVariants as refusal;

use crate::check_error::CheckError;
use crate::checks::{kind_of, placed, unknown_in};
use crate::group_names::GroupNames;
use rmt_list::List;
use rmt_values::{
    Checked, CheckedItem, CheckedQuery, Column, Filter, Item, Kind, Name, Query, Schema,
};
use std::alloc::{AllocError, Global};

/// Checks a query against a schema: the same query with places in place of names and values in place of literals. The
/// name in a refusal is the first in the statement that meets its condition; no items mean all columns. Of n items and
/// columns to group by, n log n names are compared.
#[tactic(auto, unfolding(crate::specs::Queries::query_refusal))]
pub fn check_query(alloc: Global, q: &Query, schema: &Schema) -> Result<CheckedQuery, CheckError>
    ensures ok { IfOk result (λ c. IsCheckedQuery schema.now q.now c) }
    ensures known { IfOk result (λ _. query_refusal schema.now q.now ≡ None) }
    ensures refused { IfErr result (λ e. (e ≡ refusal.Memory) ⊎ (query_refusal schema.now q.now ≡ Some e)) }
{
    let items = select_list(alloc, q.items.as_slice(), schema)?;
    if let Some(name) = unknown_where(&q.filter, schema) {
        return Err(CheckError::UnknownColumn(name.copy()?));
    }
    let group = places(alloc, q.group.as_slice(), schema)?;
    let names = GroupNames::new(alloc, q.group.as_slice())?;
    if let Some(name) = type_error_in_list(q, &names, schema) {
        return Err(CheckError::WrongType(name.copy()?));
    }
    let filter = placed_where(alloc, &q.filter, schema)?;
    Ok(CheckedQuery {
        items: List::new(items),
        filter,
        group: List::new(group),
    })
}

/// The first name of the filter that no column has, where there is a filter.
fn unknown_where<'a>(filter: &'a Option<Filter>, schema: &Schema) -> Option<&'a Name>
    ensures { option_map (λ n. n.now) result ≡ unknown_in_where schema.now filter.now }
{
    match filter {
        Some(filter) => unknown_in(filter, schema),
        None => None,
    }
}

/// The checked form of a filter that names no unknown column, where there is one.
fn placed_where(
    alloc: Global,
    filter: &Option<Filter>,
    schema: &Schema,
) -> Result<Option<Checked>, CheckError>
    ensures ok { IfOk result (λ c. IsFiltered schema.now filter.now c) }
    ensures known { IfOk result (λ _. type_error_in_where schema.now filter.now ≡ None) }
    ensures refused { IfErr result (λ e. (e ≡ refusal.Memory)
        ⊎ (option_map (λ n. refusal.WrongType n) (type_error_in_where schema.now filter.now) ≡ Some e)) }
{
    match filter {
        Some(filter) => {
            let filter = placed(alloc, filter, schema)?;
            Ok(Some(filter))
        }
        None => Ok(None),
    }
}

/// The checked form of a select list.
fn select_list(
    alloc: Global,
    items: &[Item],
    schema: &Schema,
) -> Result<Vec<CheckedItem>, CheckError>
    ensures ok { IfOk result (λ v. IsSelectList schema.now items.now v.items) }
    ensures known { IfOk result (λ _. unknown_in_items schema.now items.now ≡ None) }
    ensures refused { IfErr result (λ e. (e ≡ refusal.Memory)
        ⊎ (option_map (λ n. refusal.UnknownColumn n) (unknown_in_items schema.now items.now) ≡ Some e)) }
{
    match items {
        [] => {
            let all = all_columns(alloc, schema)?;
            Ok(all)
        }
        [..] => placed_items(alloc, items, schema),
    }
}

/// All columns, in their order.
fn all_columns(alloc: Global, schema: &Schema) -> Result<Vec<CheckedItem>, AllocError>
    ensures { IfOk result (λ v. v.items ≡ all_from 0 schema.now.columns) }
{
    let columns = schema.columns();
    let mut all = Vec::with_capacity(alloc, columns.len())?;
    'columns: for i in 0..columns.len() {
        all.push(CheckedItem::Column(i as u16))?;
    }
    Ok(all)
}

/// The checked forms of items, in their order.
fn placed_items(
    alloc: Global,
    items: &[Item],
    schema: &Schema,
) -> Result<Vec<CheckedItem>, CheckError>
    ensures ok { IfOk result (λ v. AreItems schema.now items.now v.items) }
    ensures known { IfOk result (λ _. unknown_in_items schema.now items.now ≡ None) }
    ensures refused { IfErr result (λ e. (e ≡ refusal.Memory)
        ⊎ (option_map (λ n. refusal.UnknownColumn n) (unknown_in_items schema.now items.now) ≡ Some e)) }
{
    let mut placed = Vec::with_capacity(alloc, items.len())?;
    let mut rest = items;
    'items: while let [first, others @ ..] = rest {
        let item = placed_item(first, schema)?;
        placed.push(item)?;
        rest = others;
    }
    Ok(placed)
}

/// The checked form of an item.
fn placed_item(item: &Item, schema: &Schema) -> Result<CheckedItem, CheckError>
    ensures ok { IfOk result (λ c. IsItem schema.now item.now c) }
    ensures known { IfOk result (λ _. unknown_item schema.now item.now ≡ None) }
    ensures refused { IfErr result (λ e. (e ≡ refusal.Memory)
        ⊎ (option_map (λ n. refusal.UnknownColumn n) (unknown_item schema.now item.now) ≡ Some e)) }
{
    match item {
        Item::Column(name) => Ok(CheckedItem::Column(place(name, schema)?)),
        Item::Count => Ok(CheckedItem::Count),
        Item::Sum(name) => Ok(CheckedItem::Sum(place(name, schema)?)),
        Item::Min(name) => Ok(CheckedItem::Min(place(name, schema)?)),
        Item::Max(name) => Ok(CheckedItem::Max(place(name, schema)?)),
    }
}

/// The places of the columns of these names, in their order.
fn places(alloc: Global, names: &[Name], schema: &Schema) -> Result<Vec<u16>, CheckError>
    ensures ok { IfOk result (λ v. ArePlaces schema.now names.now v.items) }
    ensures known { IfOk result (λ _. unknown_in_names schema.now names.now ≡ None) }
    ensures refused { IfErr result (λ e. (e ≡ refusal.Memory)
        ⊎ (option_map (λ n. refusal.UnknownColumn n) (unknown_in_names schema.now names.now) ≡ Some e)) }
{
    let mut placed = Vec::with_capacity(alloc, names.len())?;
    let mut rest = names;
    'names: while let [first, others @ ..] = rest {
        let at = place(first, schema)?;
        placed.push(at)?;
        rest = others;
    }
    Ok(placed)
}

/// The place of the column of this name.
fn place(name: &Name, schema: &Schema) -> Result<u16, CheckError>
    ensures ok { IfOk result (λ at. IsAt schema.now name.now at) }
    ensures known { IfOk result (λ _. unknown_name schema.now name.now ≡ None) }
    ensures refused { IfErr result (λ e. (e ≡ refusal.Memory)
        ⊎ (option_map (λ n. refusal.UnknownColumn n) (unknown_name schema.now name.now) ≡ Some e)) }
{
    let Some(at) = schema.find(name) else {
        return Err(CheckError::UnknownColumn(name.copy()?));
    };
    match schema.kind(at) {
        Some(_) => Ok(at),
        None => Err(CheckError::UnknownColumn(name.copy()?)),
    }
}

/// The first type error of the select list.
fn type_error_in_list<'a>(
    q: &'a Query,
    group: &GroupNames<'_>,
    schema: &'a Schema,
) -> Option<&'a Name>
    requires { group.now ≡ q.now.group }
    ensures { option_map (λ n. n.now) result ≡ type_error_in_select_list schema.now q.now.items q.now.group }
{
    match q.items.as_slice() {
        [] if q.group.as_slice().is_empty() => None,
        [] => ungrouped(schema.columns(), group),
        items => type_error_in(items, q.is_grouping(), group, schema),
    }
}

/// The first column that isn't one of the groups'.
fn ungrouped<'a>(columns: &'a [Column], group: &GroupNames<'_>) -> Option<&'a Name>
    ensures { option_map (λ n. n.now) result ≡ first_ungrouped group.now (names_of columns.now) }
{
    'columns: for i in 0..columns.len() {
        if !group.has(&columns[i].name) {
            return Some(&columns[i].name);
        }
    }
    None
}

/// The first item that is a type error.
fn type_error_in<'a>(
    items: &'a [Item],
    grouping: bool,
    group: &GroupNames<'_>,
    schema: &Schema,
) -> Option<&'a Name>
    ensures { option_map (λ n. n.now) result ≡ type_error_in_items schema.now grouping group.now items.now }
{
    'items: for i in 0..items.len() {
        if let Some(name) = type_error_of(&items[i], grouping, group, schema) {
            return Some(name);
        }
    }
    None
}

/// The name of the item, where it is a type error.
fn type_error_of<'a>(
    item: &'a Item,
    grouping: bool,
    group: &GroupNames<'_>,
    schema: &Schema,
) -> Option<&'a Name>
    ensures { option_map (λ n. n.now) result ≡ type_error_of_item schema.now grouping group.now item.now }
{
    match item {
        Item::Column(name) => {
            if grouping && !group.has(name) {
                Some(name)
            } else {
                None
            }
        }
        Item::Sum(name) => {
            if adds_up(kind_of(name, schema)) {
                None
            } else {
                Some(name)
            }
        }
        Item::Count | Item::Min(_) | Item::Max(_) => None,
    }
}

/// Whether it is a type of numbers.
fn adds_up(kind: Option<Kind>) -> bool
    ensures { result ≡ adds kind }
{
    match kind {
        Some(Kind::UInt64) | Some(Kind::Int64) => true,
        Some(Kind::Text) | None => false,
    }
}
