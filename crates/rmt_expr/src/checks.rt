//! Checks filters against a schema.
ghost use Rattle.std.specs.Prelude.{◌≡◌, ◌⊎◌, IfOk, IfErr, IsSome};
ghost use Rattle.std.specs.Option.{option_map};
ghost use Rattle.std.specs.declared.option.Option.TheVariants.{Some, None};
ghost use Rattle.rmt_values.specs.Filters.{FilterFits};
ghost use Rattle.rmt_values.specs.Rows.{place_from, kind_named};
ghost use Rattle.rmt_expr.specs.Checks.{
  checked_of,
  test_of,
  unknown_name,
  unknown_in as first_unknown,
  type_error_in,
  value_in,
  filter_refusal,
};
ghost use Rattle.rmt_expr.specs.declared.check_error.CheckError.TheVariants as refusal;

use crate::check_error::CheckError;
use rmt_list::Boxed;
use rmt_values::{Checked, Cmp, Filter, Kind, Literal, Name, Schema};
use std::alloc::Global;

/// Checks a filter against a schema: the same filter with places in place of names and values in place of literals.
/// The name in a refusal is the first in the filter that meets its condition.
#[tactic(auto, unfolding(crate::specs::Checks::filter_refusal))]
pub fn check(alloc: Global, filter: &Filter, schema: &Schema) -> Result<Checked, CheckError>
    ensures ok { IfOk result (λ c. checked_of schema.now filter.now ≡ Some c) }
    ensures fits { IfOk result (λ c. FilterFits schema.now c) }
    ensures known { IfOk result (λ _. filter_refusal schema.now filter.now ≡ None) }
    ensures refused { IfErr result (λ e. (e ≡ refusal.Memory) ⊎ (filter_refusal schema.now filter.now ≡ Some e)) }
{
    match unknown_in(filter, schema) {
        Some(name) => Err(CheckError::UnknownColumn(name.copy()?)),
        None => placed(alloc, filter, schema),
    }
}

/// The first name that no column has.
pub fn unknown_in<'a>(filter: &'a Filter, schema: &Schema) -> Option<&'a Name>
    ensures { option_map (λ n. n.now) result ≡ first_unknown schema.now filter.now }
{
    match filter {
        Filter::Test { column, .. } => unknown(column, schema),
        Filter::Both(f, g) | Filter::Either(f, g) => match unknown_in(f.get(), schema) {
            Some(name) => Some(name),
            None => unknown_in(g.get(), schema),
        },
        Filter::Not(f) => unknown_in(f.get(), schema),
    }
}

/// The name, where no column has it.
pub fn unknown<'a>(name: &'a Name, schema: &Schema) -> Option<&'a Name>
    ensures { option_map (λ n. n.now) result ≡ unknown_name schema.now name.now }
{
    match kind_of(name, schema) {
        Some(_) => None,
        None => Some(name),
    }
}

/// The type of the column of this name.
pub fn kind_of(name: &Name, schema: &Schema) -> Option<Kind>
    ensures { result ≡ kind_named schema.now.columns name.now }
{
    match schema.find(name) {
        Some(at) => schema.kind(at),
        None => None,
    }
}

/// The checked form of a filter that names no unknown column.
pub fn placed(alloc: Global, filter: &Filter, schema: &Schema) -> Result<Checked, CheckError>
    ensures ok { IfOk result (λ c. checked_of schema.now filter.now ≡ Some c) }
    ensures fits { IfOk result (λ c. FilterFits schema.now c) }
    ensures known { IfOk result (λ _. type_error_in schema.now filter.now ≡ None) }
    ensures refused { IfErr result (λ e. (e ≡ refusal.Memory)
        ⊎ (option_map (λ n. refusal.WrongType n) (type_error_in schema.now filter.now) ≡ Some e)) }
{
    match filter {
        Filter::Test {
            column,
            cmp,
            literal,
        } => placed_test(alloc, column, *cmp, literal, schema),
        Filter::Both(f, g) => {
            let left = placed(alloc, f.get(), schema)?;
            let right = placed(alloc, g.get(), schema)?;
            Ok(Checked::Both(Boxed::new(alloc, left)?, Boxed::new(alloc, right)?))
        }
        Filter::Either(f, g) => {
            let left = placed(alloc, f.get(), schema)?;
            let right = placed(alloc, g.get(), schema)?;
            Ok(Checked::Either(Boxed::new(alloc, left)?, Boxed::new(alloc, right)?))
        }
        Filter::Not(f) => {
            let inner = placed(alloc, f.get(), schema)?;
            Ok(Checked::Not(Boxed::new(alloc, inner)?))
        }
    }
}

/// The checked form of a test.
fn placed_test(
    alloc: Global,
    column: &Name,
    cmp: Cmp,
    literal: &Literal,
    schema: &Schema,
) -> Result<Checked, CheckError>
    ensures ok { IfOk result (λ c. test_of cmp (place_from 0 schema.now.columns column.now)
        (value_in literal.now (kind_named schema.now.columns column.now)) ≡ Some c) }
    ensures fits { IfOk result (λ c. FilterFits schema.now c) }
    ensures known { IfOk result (λ _. IsSome (value_in literal.now (kind_named schema.now.columns column.now))) }
    ensures refused { IfErr result (λ e. (e ≡ refusal.Memory)
        ⊎ ((e ≡ refusal.WrongType column.now) × (value_in literal.now (kind_named schema.now.columns column.now) ≡ None))) }
{
    let Some(at) = schema.find(column) else {
        return Err(CheckError::WrongType(column.copy()?));
    };
    let Some(kind) = schema.kind(at) else {
        return Err(CheckError::WrongType(column.copy()?));
    };
    match literal.value_in(alloc, kind)? {
        Some(value) => Ok(Checked::Test {
            column: at,
            cmp,
            value,
        }),
        None => Err(CheckError::WrongType(column.copy()?)),
    }
}
