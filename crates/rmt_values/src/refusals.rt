//! Why columns, a key, a partition rule and settings make no schema.
ghost use Rattle.std.specs.Prelude.{◌≡◌, ◌≤◌, ◌<◌, length, IfOk, MatchOption};
ghost use Rattle.std.specs.Option.{option_or, option_map};
ghost use Rattle.rmt_values.specs.Rows.{place_from, kind_named};
ghost use Rattle.rmt_values.specs.Schemas.{
  names_of as names_in,
  has_name,
  first_unknown as unknown_in,
  unknown_in_rule,
  wrong_rule as wrong_rule_in,
  wrong_setting,
  schema_refusal,
  places_of as places_in,
  rule_of as rule_in,
};

use crate::column::Column;
use crate::kind::Kind;
use crate::limit::Limit;
use crate::name::Name;
use crate::name_sets::{double_column, double_name, unknown_column};
use crate::partition_rule::PartitionRule;
use crate::schema_error::SchemaError;
use std::alloc::{AllocError, Global};

/// The most columns of a table.
const MOST_COLUMNS: usize = 64;

/// The most rows of a granule.
const MOST_GRANULARITY: u32 = 65_536;

/// The most blocks that the window of insert deduplication keeps.
const MOST_WINDOW: u32 = 100_000;

/// The first reason, in the order of checks, why these make no schema.
#[tactic(auto, unfolding(crate::specs::Schemas::schema_refusal))]
pub fn refusal_of(
    alloc: Global,
    columns: &[Column],
    key: &[Name],
    partition: &Option<(Name, u64)>,
    granularity: u32,
    window: u32,
) -> Result<Option<SchemaError>, AllocError>
    ensures { IfOk result (λ refusal.
        refusal ≡ schema_refusal columns.now key.now partition.now granularity window) }
{
    if columns.is_empty() {
        return Ok(Some(SchemaError::NoColumns));
    }
    if let Some(name) = unknown_name(alloc, columns, key, partition)? {
        return Ok(Some(SchemaError::UnknownColumn(name)));
    }
    if let Some(name) = double_column(alloc, columns)? {
        return Ok(Some(SchemaError::DoubleColumn(name)));
    }
    if let Some(name) = double_name(alloc, key)? {
        return Ok(Some(SchemaError::DoubleColumn(name)));
    }
    if let Some(name) = wrong_number(alloc, columns, partition, granularity, window)? {
        return Ok(Some(SchemaError::WrongType(name)));
    }
    if columns.len() > MOST_COLUMNS {
        return Ok(Some(SchemaError::LimitReached {
            limit: Limit::Columns,
            value: 64,
        }));
    }
    Ok(None)
}

/// The first name, of the rule and then of the key, that no column has.
fn unknown_name(
    alloc: Global,
    columns: &[Column],
    key: &[Name],
    partition: &Option<(Name, u64)>,
) -> Result<Option<Name>, AllocError>
    ensures { IfOk result (λ name. name
        ≡ option_or (unknown_in_rule columns.now partition.now) (unknown_in (names_in columns.now) key.now)) }
{
    if let Some((name, _)) = partition {
        if !has_column(columns, name) {
            return Ok(Some(name.copy()?));
        }
    }
    unknown_column(alloc, columns, key)
}

/// Whether a column has this name.
fn has_column(columns: &[Column], name: &Name) -> bool
    ensures { result ≡ has_name (names_in columns.now) name.now }
{
    'columns: for column in columns {
        if column.name.is(name.as_bytes()) {
            return true;
        }
    }
    false
}

/// The rule's column, where it isn't one of UInt64 or the divisor is 0; else the first setting out of its range.
fn wrong_number(
    alloc: Global,
    columns: &[Column],
    partition: &Option<(Name, u64)>,
    granularity: u32,
    window: u32,
) -> Result<Option<Name>, AllocError>
    ensures { IfOk result (λ name. name
        ≡ option_or (wrong_rule_in columns.now partition.now) (wrong_setting granularity window)) }
{
    if let Some((name, divisor)) = partition {
        if !matches!(kind_of(columns, name), Some(Kind::UInt64)) || *divisor < 1 {
            return Ok(Some(name.copy()?));
        }
    }
    setting_out_of_range(alloc, granularity, window)
}

/// The type of the first column of this name.
fn kind_of(columns: &[Column], name: &Name) -> Option<Kind>
    ensures { result ≡ kind_named columns.now name.now }
{
    match place_in(columns, name) {
        Some(place) => match columns.get(place) {
            Some(column) => Some(column.kind),
            None => None,
        },
        None => None,
    }
}

/// The places of the columns of these names.
pub fn places_of(alloc: Global, columns: &[Column], names: &[Name]) -> Result<Vec<u16>, AllocError>
    requires { length columns.now ≤ 64 }
    ensures { IfOk result (λ places. places.items ≡ places_in columns.now names.now) }
{
    let mut places = Vec::with_capacity(alloc, names.len())?;
    'names: for name in names {
        places.push(place_of(columns, name).unwrap_or(0))?;
    }
    Ok(places)
}

/// The place of the column of this name, counted from 0, in a schema's columns.
pub fn place_of(columns: &[Column], name: &Name) -> Option<u16>
    requires { length columns.now ≤ 64 }
    ensures { result ≡ place_from 0 columns.now name.now }
{
    match place_in(columns, name) {
        Some(place) => Some(place as u16),
        None => None,
    }
}

/// The place of the first column of this name, counted from 0.
fn place_in(columns: &[Column], name: &Name) -> Option<usize>
    ensures place { result ≡ place_from 0 columns.now name.now }
    ensures within { MatchOption result (Unit {0}) (λ place. place < length columns.now) }
{
    'columns: for i in 0..columns.len() {
        if columns[i].name.is(name.as_bytes()) {
            return Some(i);
        }
    }
    None
}

/// The rule, with the place of its column.
pub fn rule_of(columns: &[Column], partition: &Option<(Name, u64)>) -> Option<PartitionRule>
    requires { length columns.now ≤ 64 }
    ensures { result ≡ rule_in columns.now partition.now }
{
    match partition {
        Some((name, divisor)) => Some(PartitionRule {
            column: place_of(columns, name).unwrap_or(0),
            divisor: *divisor,
        }),
        None => None,
    }
}

/// The name of the first setting whose number is out of its range.
fn setting_out_of_range(
    alloc: Global,
    granularity: u32,
    window: u32,
) -> Result<Option<Name>, AllocError>
    ensures { IfOk result (λ name. name ≡ wrong_setting granularity window) }
{
    if granularity < 1 || granularity > MOST_GRANULARITY {
        return Ok(Some(Name::from_slice(alloc, b"index_granularity")?));
    }
    if window > MOST_WINDOW {
        return Ok(Some(Name::from_slice(alloc, b"replicated_deduplication_window")?));
    }
    Ok(None)
}
