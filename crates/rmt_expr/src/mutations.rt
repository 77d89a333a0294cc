//! Checks commands against a schema.
ghost use Rattle.std.specs.Prelude.{◌≡◌, ◌⊎◌, IfOk, IfErr};
ghost use Rattle.std.specs.Option.{option_map, option_or};
ghost use Rattle.std.specs.declared.option.Option.TheVariants.{Some, None};
ghost use Rattle.rmt_values.specs.Schemas.{has_name as has, first_double};
ghost use Rattle.rmt_values.specs.Commands.{CommandFits, SetsFit, rule_columns};
ghost use Rattle.rmt_values.specs.Filters.{FilterFits};
ghost use Rattle.rmt_expr.specs.Checks.{checked_of, type_error_in, unknown_in as first_unknown};
ghost use Rattle.rmt_expr.specs.Mutations.{
  IsCheckedMutation,
  AreSets,
  mutation_refusal,
  update_refusal,
  delete_refusal,
  unknown_right as unknown_on_right,
  unknown_in_sets,
  among,
  is_fixed as fixed,
  fixed_in_sets,
  lefts,
};
ghost use Rattle.rmt_values.specs.Rows.{place_from};
ghost use Rattle.rmt_expr.specs.declared.mutation_error.MutationError.TheVariants as refusal;

use crate::check_error::CheckError;
use crate::checks::{check, placed, unknown, unknown_in};
use crate::mutation_error::MutationError;
use crate::sets::placed_sets;
use rmt_list::List;
use rmt_values::{Checked, CheckedMutation, CheckedRight, Filter, Mutation, Name, Right, Schema};
use std::alloc::Global;

/// Checks a command against a schema: the same command with places in place of names and values in place of literals.
/// The name in a refusal is the first in the statement that meets its condition; of a set, it is its left side.
pub fn check_mutation(
    alloc: Global,
    m: &Mutation,
    schema: &Schema,
) -> Result<CheckedMutation, MutationError>
    ensures ok { IfOk result (λ c. IsCheckedMutation schema.now m.now c) }
    ensures fits { IfOk result (λ c. CommandFits schema.now c) }
    ensures known { IfOk result (λ _. mutation_refusal schema.now m.now ≡ None) }
    ensures refused { IfErr result (λ e. (e ≡ refusal.Memory) ⊎ (mutation_refusal schema.now m.now ≡ Some e)) }
{
    match m {
        Mutation::Update { sets, filter } => {
            let (sets, filter) = check_update(alloc, sets, filter, schema)?;
            Ok(CheckedMutation::Update { sets, filter })
        }
        Mutation::Delete { filter } => {
            let filter = check_delete(alloc, filter, schema)?;
            Ok(CheckedMutation::Delete { filter })
        }
    }
}

/// The checked form of a DELETE's filter.
#[tactic(auto, unfolding(crate::specs::Mutations::delete_refusal, crate::specs::Checks::filter_refusal))]
fn check_delete(alloc: Global, filter: &Filter, schema: &Schema) -> Result<Checked, MutationError>
    ensures ok { IfOk result (λ c. checked_of schema.now filter.now ≡ Some c) }
    ensures fits { IfOk result (λ c. FilterFits schema.now c) }
    ensures known { IfOk result (λ _. delete_refusal schema.now filter.now ≡ None) }
    ensures refused { IfErr result (λ e. (e ≡ refusal.Memory) ⊎ (delete_refusal schema.now filter.now ≡ Some e)) }
{
    match check(alloc, filter, schema) {
        Ok(filter) => Ok(filter),
        Err(CheckError::UnknownColumn(name)) => Err(MutationError::UnknownColumn(name)),
        Err(CheckError::WrongType(name)) => Err(MutationError::WrongType(name)),
        Err(CheckError::Memory) => Err(MutationError::Memory),
    }
}

/// The checked forms of an UPDATE's sets and of its filter.
#[tactic(auto, unfolding(crate::specs::Mutations::update_refusal))]
fn check_update(
    alloc: Global,
    sets: &List<(Name, Right)>,
    filter: &Filter,
    schema: &Schema,
) -> Result<(List<(u16, CheckedRight)>, Checked), MutationError>
    ensures ok { IfOk result (λ c. AreSets schema.now sets.now c.0 × (checked_of schema.now filter.now ≡ Some c.1)) }
    ensures fits { IfOk result (λ c. SetsFit schema.now c.0 × FilterFits schema.now c.1) }
    ensures known { IfOk result (λ _. update_refusal schema.now sets.now filter.now ≡ None) }
    ensures refused { IfErr result (λ e. (e ≡ refusal.Memory)
        ⊎ (update_refusal schema.now sets.now filter.now ≡ Some e)) }
{
    let pairs = sets.as_slice();
    refuse_unknown(pairs, filter, schema)?;
    refuse_double(pairs)?;
    let placed = placed_sets(alloc, pairs, schema)?;
    let filter = check_rest(alloc, pairs, filter, schema)?;
    Ok((List::new(placed), filter))
}

/// Refuses an UPDATE that names an unknown column.
fn refuse_unknown(
    sets: &[(Name, Right)],
    filter: &Filter,
    schema: &Schema,
) -> Result<(), MutationError>
    ensures known { IfOk result (λ _.
        option_or (unknown_in_sets schema.now sets.now) (first_unknown schema.now filter.now) ≡ None) }
    ensures refused { IfErr result (λ e. (e ≡ refusal.Memory)
        ⊎ (option_map (λ n. refusal.UnknownColumn n)
        (option_or (unknown_in_sets schema.now sets.now) (first_unknown schema.now filter.now)) ≡ Some e)) }
{
    match unknown_in_update(sets, filter, schema) {
        Some(name) => Err(MutationError::UnknownColumn(name.copy()?)),
        None => Ok(()),
    }
}

/// Refuses an UPDATE that sets a column twice.
fn refuse_double(sets: &[(Name, Right)]) -> Result<(), MutationError>
    ensures known { IfOk result (λ _. first_double (lefts sets.now) ≡ None) }
    ensures refused { IfErr result (λ e. (e ≡ refusal.Memory)
        ⊎ (option_map (λ n. refusal.DoubleColumn n) (first_double (lefts sets.now)) ≡ Some e)) }
{
    match double_in(sets) {
        Some(name) => Err(MutationError::DoubleColumn(name.copy()?)),
        None => Ok(()),
    }
}

/// Refuses an UPDATE that sets a column of the sorting key, or that of the partition rule.
fn refuse_fixed(sets: &[(Name, Right)], schema: &Schema) -> Result<(), MutationError>
    ensures known { IfOk result (λ _. fixed_in_sets schema.now sets.now ≡ None) }
    ensures refused { IfErr result (λ e. (e ≡ refusal.Memory)
        ⊎ (option_map (λ n. refusal.KeyColumn n) (fixed_in_sets schema.now sets.now) ≡ Some e)) }
{
    match fixed_set(sets, schema) {
        Some(name) => Err(MutationError::KeyColumn(name.copy()?)),
        None => Ok(()),
    }
}

/// What an UPDATE is checked for after the types of its sets: the checked form of its filter, which names no unknown
/// column, and that no set column is fixed.
fn check_rest(
    alloc: Global,
    sets: &[(Name, Right)],
    filter: &Filter,
    schema: &Schema,
) -> Result<Checked, MutationError>
    ensures ok { IfOk result (λ c. checked_of schema.now filter.now ≡ Some c) }
    ensures fits { IfOk result (λ c. FilterFits schema.now c) }
    ensures typed { IfOk result (λ _. type_error_in schema.now filter.now ≡ None) }
    ensures known { IfOk result (λ _. fixed_in_sets schema.now sets.now ≡ None) }
    ensures refused { IfErr result (λ e. (e ≡ refusal.Memory)
        ⊎ (option_or (option_map (λ n. refusal.WrongType n) (type_error_in schema.now filter.now))
        (option_map (λ n. refusal.KeyColumn n) (fixed_in_sets schema.now sets.now)) ≡ Some e)) }
{
    let filter = placed(alloc, filter, schema)?;
    refuse_fixed(sets, schema)?;
    Ok(filter)
}

/// The first name of an UPDATE that no column has.
fn unknown_in_update<'a>(
    sets: &'a [(Name, Right)],
    filter: &'a Filter,
    schema: &Schema,
) -> Option<&'a Name>
    ensures { option_map (λ n. n.now) result
        ≡ option_or (unknown_in_sets schema.now sets.now) (first_unknown schema.now filter.now) }
{
    match unknown_set(sets, schema) {
        Some(name) => Some(name),
        None => unknown_in(filter, schema),
    }
}

/// The first name of the sets that no column has.
fn unknown_set<'a>(sets: &'a [(Name, Right)], schema: &Schema) -> Option<&'a Name>
    ensures { option_map (λ n. n.now) result ≡ unknown_in_sets schema.now sets.now }
{
    'sets: for i in 0..sets.len() {
        if let Some(name) = unknown(&sets[i].0, schema) {
            return Some(name);
        }
        if let Some(name) = unknown_right(&sets[i].1, schema) {
            return Some(name);
        }
    }
    None
}

/// The name on a right side, where no column has it.
fn unknown_right<'a>(right: &'a Right, schema: &Schema) -> Option<&'a Name>
    ensures { option_map (λ n. n.now) result ≡ unknown_on_right schema.now right.now }
{
    match right {
        Right::Literal(_) => None,
        Right::Column(name) => unknown(name, schema),
        Right::Plus { column, .. } | Right::Minus { column, .. } => unknown(column, schema),
    }
}

/// The first left side that a later one repeats.
fn double_in(sets: &[(Name, Right)]) -> Option<&Name>
    ensures { option_map (λ n. n.now) result ≡ first_double (lefts sets.now) }
{
    let mut rest = sets;
    'sets: while let [first, others @ ..] = rest {
        if sets_name(others, &first.0) {
            return Some(&first.0);
        }
        rest = others;
    }
    None
}

/// Whether a set has this name on its left side.
fn sets_name(sets: &[(Name, Right)], name: &Name) -> bool
    ensures { result ≡ has (lefts sets.now) name.now }
{
    'sets: for i in 0..sets.len() {
        if sets[i].0.equals(name) {
            return true;
        }
    }
    false
}

/// The first left side that is a column of the sorting key, or that of the partition rule.
fn fixed_set<'a>(sets: &'a [(Name, Right)], schema: &Schema) -> Option<&'a Name>
    ensures { option_map (λ n. n.now) result ≡ fixed_in_sets schema.now sets.now }
{
    'sets: for i in 0..sets.len() {
        if is_fixed(&sets[i].0, schema) {
            return Some(&sets[i].0);
        }
    }
    None
}

/// Whether the column of this name is one of the sorting key, or that of the partition rule.
fn is_fixed(name: &Name, schema: &Schema) -> bool
    ensures { result ≡ fixed schema.now (place_from 0 schema.now.columns name.now) }
{
    match schema.find(name) {
        Some(at) => has_place(schema.key(), at) || is_divided_by(schema, at),
        None => false,
    }
}

/// Whether the column at this place is that of the partition rule.
fn is_divided_by(schema: &Schema, at: u16) -> bool
    ensures { result ≡ among (rule_columns schema.now.partition) at }
{
    match schema.partition() {
        Some(rule) => rule.column == at,
        None => false,
    }
}

/// Whether the place is one of these.
fn has_place(places: &[u16], at: u16) -> bool
    ensures { result ≡ among places.now at }
{
    'places: for place in places {
        if *place == at {
            return true;
        }
    }
    false
}
