//! Applies commands to rows.
ghost use Rattle.std.specs.Prelude.{◌≡◌, IfOk};
ghost use Rattle.std.specs.Option.{option_map};
ghost use Rattle.std.specs.declared.option.Option.TheVariants.{Some};
ghost use Rattle.rmt_values.specs.Commands.{
  applied,
  set_from,
  updated_from,
  new_value,
  plus as added,
  minus as taken,
  cell_or,
};

use crate::keeps::holds;
use rmt_list::List;
use rmt_values::{CheckedMutation, CheckedRight, Row, Value};
use std::alloc::{AllocError, Global};

/// Applies a command to a row: the row afterwards, or none where the command deletes it. A row that the filter
/// doesn't keep stays as it is.
#[tactic(auto, unfolding(rmt_values::specs::Commands::applied))]
pub fn apply(alloc: Global, m: &CheckedMutation, row: &Row) -> Result<Option<Row>, AllocError>
    ensures { IfOk result (λ new. new ≡ applied m.now row.now) }
{
    match m {
        CheckedMutation::Delete { filter } => {
            if holds(filter, row) {
                Ok(None)
            } else {
                Ok(Some(row.copy()?))
            }
        }
        CheckedMutation::Update { sets, filter } => {
            if holds(filter, row) {
                Ok(Some(updated(alloc, sets, row)?))
            } else {
                Ok(Some(row.copy()?))
            }
        }
    }
}

/// The row with the new value of each column.
fn updated(alloc: Global, sets: &List<(u16, CheckedRight)>, row: &Row) -> Result<Row, AllocError>
    ensures { IfOk result (λ new. new ≡ updated_from 0 sets.now row.now row.now) }
{
    let sets = sets.as_slice();
    let values = row.values();
    let mut new = Vec::with_capacity(alloc, values.len())?;
    'columns: for i in 0..values.len() {
        new.push(value_for(sets, i, row, &values[i])?)?;
    }
    Ok(Row::new(new))
}

/// The value that a column gets.
fn value_for(
    sets: &[(u16, CheckedRight)],
    column: usize,
    row: &Row,
    old: &Value,
) -> Result<Value, AllocError>
    ensures { IfOk result (λ v. v ≡ new_value (set_from sets.now column) row.now old.now) }
{
    match find(sets, column) {
        Some(right) => right_of(right, row, old),
        None => old.copy(),
    }
}

/// What the column is set to.
pub fn find(sets: &[(u16, CheckedRight)], column: usize) -> Option<&CheckedRight>
    ensures { option_map (λ r. r.now) result ≡ set_from sets.now column }
{
    'sets: for i in 0..sets.len() {
        if sets[i].0 as usize == column {
            return Some(&sets[i].1);
        }
    }
    None
}

/// The value of a right side, read from the old row.
fn right_of(right: &CheckedRight, row: &Row, old: &Value) -> Result<Value, AllocError>
    ensures { IfOk result (λ v. v ≡ new_value (Some right.now) row.now old.now) }
{
    match right {
        CheckedRight::Literal(v) => v.copy(),
        CheckedRight::Column(c) => at(row, *c, old).copy(),
        CheckedRight::Plus { column, by } => plus(at(row, *column, old), by),
        CheckedRight::Minus { column, by } => minus(at(row, *column, old), by),
    }
}

/// The value in the column, or the old one where the row hasn't that column.
fn at<'a>(row: &'a Row, column: u16, old: &'a Value) -> &'a Value
    ensures { result.now ≡ cell_or row.now column old.now }
{
    match row.values().get(column as usize) {
        Some(v) => v,
        None => old,
    }
}

/// The sum modulo 2^64; of values that aren't numbers of one type, the left one.
fn plus(a: &Value, b: &Value) -> Result<Value, AllocError>
    ensures { IfOk result (λ v. v ≡ added a.now b.now) }
{
    match (a, b) {
        (Value::UInt(x), Value::UInt(y)) => Ok(Value::UInt(x.wrapping_add(*y))),
        (Value::Int(x), Value::Int(y)) => Ok(Value::Int(x.wrapping_add(*y))),
        _ => a.copy(),
    }
}

/// The difference modulo 2^64; of values that aren't numbers of one type, the left one.
fn minus(a: &Value, b: &Value) -> Result<Value, AllocError>
    ensures { IfOk result (λ v. v ≡ taken a.now b.now) }
{
    match (a, b) {
        (Value::UInt(x), Value::UInt(y)) => Ok(Value::UInt(x.wrapping_sub(*y))),
        (Value::Int(x), Value::Int(y)) => Ok(Value::Int(x.wrapping_sub(*y))),
        _ => a.copy(),
    }
}
