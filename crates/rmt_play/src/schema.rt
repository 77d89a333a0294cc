//! The schema of a new table.
ghost use Rattle.std.specs.Prelude.{◌≡◌, ◌↔◌, IfOk, IfErr, IsTrue};
ghost use Rattle.std.specs.declared.option.Option.TheVariants.{None, Some};
ghost use Rattle.rmt_values.specs.declared.schema_error.SchemaError.TheVariants.{Memory};
ghost use Rattle.rmt_play.specs.Checks.{setting_of, rule_given, schema_refused, schema_made};

use rmt_list::List;
use rmt_values::{Column, Name, Schema, SchemaError};
use std::alloc::{AllocError, Global};

/// The rows of a granule, where no number is given.
const DEFAULT_GRANULARITY: u32 = 8192;

/// The blocks that the window of insert deduplication keeps, where no number is given.
const DEFAULT_WINDOW: u32 = 100;

/// The number of a setting. One of more than 32 bits counts as the greatest, which is refused.
fn setting(default: u32, number: Option<u128>) -> u32
    ensures { result ≡ setting_of default number }
{
    match number {
        None => default,
        Some(number) => {
            if number < 1 << 32 {
                number as u32
            } else {
                u32::MAX
            }
        }
    }
}

/// The partition rule. A divisor of more than 64 bits counts as 0, which is refused.
fn rule(partition: Option<(Name, u128)>) -> Option<(Name, u64)>
    ensures { result ≡ rule_given partition }
{
    match partition {
        None => None,
        Some((column, divisor)) => {
            let divisor = if divisor < 1 << 64 { divisor as u64 } else { 0 };
            Some((column, divisor))
        }
    }
}

/// Whether no memory was left.
fn is_memory(error: &SchemaError) -> bool
    ensures { IsTrue result ↔ (error.now ≡ Memory) }
{
    matches!(error, SchemaError::Memory)
}

/// The schema of a CREATE, or why there is none.
pub(crate) fn new_schema(
    alloc: Global,
    columns: List<Column>,
    partition: Option<(Name, u128)>,
    key: List<Name>,
    granularity: Option<u128>,
    window: Option<u128>,
) -> Result<Result<Schema, SchemaError>, AllocError>
    ensures ok { IfOk result (λ made. IfOk made (λ schema. schema
        ≡ schema_made columns partition key granularity window)) }
    ensures known { IfOk result (λ made. IfOk made (λ _.
        schema_refused columns partition key granularity window ≡ None)) }
    ensures refused { IfOk result (λ made. IfErr made (λ e.
        schema_refused columns partition key granularity window ≡ Some e)) }
{
    let granularity = setting(DEFAULT_GRANULARITY, granularity);
    let window = setting(DEFAULT_WINDOW, window);
    let (columns, key) = (columns.into_vec(), key.into_vec());
    match Schema::new(alloc, columns, key, rule(partition), granularity, window) {
        Ok(schema) => Ok(Ok(schema)),
        Err(error) if is_memory(&error) => Err(AllocError),
        Err(refusal) => Ok(Err(refusal)),
    }
}
