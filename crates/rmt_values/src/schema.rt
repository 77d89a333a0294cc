ghost use Rattle.std.specs.Prelude.{◌≡◌, ◌⊎◌, IfOk, IfErr, slice_get};
ghost use Rattle.rmt_values.specs.Rows.{fits, key_cmp, place_from, kind_at};
ghost use Rattle.rmt_values.specs.Partitions.{number_in, partition_of as partition_by};
ghost use Rattle.rmt_values.specs.Schemas.{IsSchema, schema_refusal, shape_of};

use crate::column::Column;
use crate::kind::Kind;
use crate::name::Name;
use crate::partition_rule::PartitionRule;
use crate::refusals::{place_of, places_of, refusal_of, rule_of};
use crate::row::Row;
use crate::schema_error::SchemaError;
use crate::value::Value;
use std::alloc::Global;
use std::cmp::Ordering;
use std::marker::Model;

/// The columns of a table, the columns of its sorting key in their order, the rule of its partitions, how many rows a
/// granule has, and how many blocks the window of insert deduplication keeps. Contracts see it as a `Shape`.
#[derive(Debug, Drop)]
pub struct Schema {
    columns: Vec<Column>,
    key: Vec<u16>,
    partition: Option<PartitionRule>,
    granularity: u32,
    window: u32,
}

impl Model for Schema {
    ghost use Rattle.rmt_values.specs.Rows.{Shape};
    ghost use Rattle.rmt_values.specs.Schemas.{IsSchema};

    ghost Value = { Shape };

    ghost view = { λ s. record { columns = s.columns.items; key = s.key.items; partition = s.partition; granularity = s.granularity; window = s.window } };

    ghost invariant = { λ s. IsSchema (record { columns = s.columns.items; key = s.key.items; partition = s.partition; granularity = s.granularity; window = s.window }) };
}

impl Schema {
    /// Makes a schema of columns, the names of the sorting key's columns in their order, the column of the partition rule
    /// with its divisor (1 for the column itself), the rows of a granule and the blocks of the window of insert
    /// deduplication.
    pub fn new(
        alloc: Global,
        columns: Vec<Column>,
        key: Vec<Name>,
        partition: Option<(Name, u64)>,
        granularity: u32,
        window: u32,
    ) -> Result<Schema, SchemaError>
        ensures ok { IfOk result (λ schema.
            schema ≡ shape_of columns.items key.items partition granularity window) }
        ensures known { IfOk result (λ _. schema_refusal columns.items key.items partition granularity window ≡ None) }
        ensures refused { IfErr result (λ e. (e ≡ SchemaError.Memory)
            ⊎ (schema_refusal columns.items key.items partition granularity window ≡ Some e)) }
    {
        match refusal_of(alloc, &columns, &key, &partition, granularity, window)? {
            Some(refusal) => Err(refusal),
            None => {
                let key = places_of(alloc, &columns, &key)?;
                let partition = rule_of(&columns, &partition);
                Ok(Schema {
                    columns,
                    key,
                    partition,
                    granularity,
                    window,
                })
            }
        }
    }

    /// The columns, in their order.
    pub fn columns(&self) -> &[Column]
        ensures value { result.now ≡ self.now.columns }
        ensures schema { IsSchema self.now }
    {
        &self.columns
    }

    /// The places of the sorting key's columns, counted from 0, in the order of the key.
    pub fn key(&self) -> &[u16]
        ensures value { result.now ≡ self.now.key }
        ensures schema { IsSchema self.now }
    {
        &self.key
    }

    /// The rule of its partitions; none where the table isn't divided.
    pub fn partition(&self) -> Option<PartitionRule>
        ensures value { result ≡ self.now.partition }
        ensures schema { IsSchema self.now }
    {
        self.partition
    }

    /// How many rows a granule has.
    pub fn granularity(&self) -> u32
        ensures { result ≡ self.now.granularity }
    {
        self.granularity
    }

    /// How many blocks the window of insert deduplication keeps; with 0 nothing is deduplicated.
    pub fn window(&self) -> u32
        ensures { result ≡ self.now.window }
    {
        self.window
    }

    /// Whether the row has a value of its type for each column.
    pub fn fits(&self, row: &Row) -> bool
        ensures { result ≡ fits self.now.columns row.now }
    {
        let values = row.values();
        if values.len() != self.columns.len() {
            return false;
        }
        'columns: for i in 0..values.len() {
            if !values[i].is_of(self.columns[i].kind) {
                return false;
            }
        }
        true
    }

    /// The number of the partition that a row is of; none where the table isn't divided. A row that has no number in the
    /// rule's column, and so doesn't fit, counts as one of 0.
    pub fn partition_of(&self, row: &Row) -> Option<u64>
        ensures { result ≡ partition_by self.now.partition row.now }
    {
        match self.partition {
            Some(rule) => Some(number_at(row, rule.column) / rule.divisor),
            None => None,
        }
    }

    /// The place of the column of this name, counted from 0.
    pub fn find(&self, name: &Name) -> Option<u16>
        ensures { result ≡ place_from 0 self.now.columns name.now }
    {
        place_of(&self.columns, name)
    }

    /// The type of the column at a place, counted from 0.
    pub fn kind(&self, column: u16) -> Option<Kind>
        ensures { result ≡ kind_at self.now.columns column }
    {
        match self.columns.get(column as usize) {
            Some(there) => Some(there.kind),
            None => None,
        }
    }

    /// The order of two rows by their keys.
    pub fn key_order(&self, a: &Row, b: &Row) -> Ordering
        ensures { result ≡ key_cmp self.now.key a.now b.now }
    {
        a.compare_by(&self.key, b)
    }
}

// The number in a column of a row; 0 where there is none.
fn number_at(row: &Row, column: u16) -> u64
    ensures { result ≡ number_in (slice_get row.now column) }
{
    match row.values().get(column as usize) {
        Some(Value::UInt(number)) => *number,
        Some(Value::Int(_)) | Some(Value::Text(_)) | None => 0,
    }
}
