//! Places the sets of an UPDATE.
ghost use Rattle.std.specs.Prelude.{◌≡◌, ◌⊎◌, IfOk, IfErr, MatchOption, true, false};
ghost use Rattle.std.specs.Option.{option_map};
ghost use Rattle.std.specs.declared.option.Option.TheVariants.{Some, None};
ghost use Rattle.rmt_values.specs.Rows.{kind_at, kind_named, same_kind};
ghost use Rattle.rmt_values.specs.Commands.{RightFits, is_number as has_numbers};
ghost use Rattle.rmt_expr.specs.Checks.{IsColumn};
ghost use Rattle.rmt_expr.specs.Mutations.{IsRight, is_kind, may_add, may_be, may_set, type_error_in_sets};
ghost use Rattle.rmt_expr.specs.Placed.{IsAdded, IsPlaced, ArePlaced};
ghost use Rattle.rmt_expr.specs.declared.mutation_error.MutationError.TheVariants as refusal;

use crate::mutation_error::MutationError;
use rmt_values::{CheckedRight, Kind, Literal, Name, Right, Schema, Value};
use std::alloc::{AllocError, Global};

/// The checked forms of all sets, in their order.
pub fn placed_sets(
    alloc: Global,
    sets: &[(Name, Right)],
    schema: &Schema,
) -> Result<Vec<(u16, CheckedRight)>, MutationError>
    ensures ok { IfOk result (λ placed. ArePlaced schema.now sets.now placed.items) }
    ensures known { IfOk result (λ _. type_error_in_sets schema.now sets.now ≡ None) }
    ensures refused { IfErr result (λ e. (e ≡ refusal.Memory)
        ⊎ (option_map (λ n. refusal.WrongType n) (type_error_in_sets schema.now sets.now) ≡ Some e)) }
{
    let mut placed = Vec::with_capacity(alloc, sets.len())?;
    let mut rest = sets;
    'sets: while let [first, others @ ..] = rest {
        match placed_set(alloc, &first.0, &first.1, schema)? {
            Some(pair) => placed.push(pair)?,
            None => return Err(MutationError::WrongType(first.0.copy()?)),
        }
        rest = others;
    }
    Ok(placed)
}

/// The checked form of one set, where its column may be set so.
fn placed_set(
    alloc: Global,
    name: &Name,
    right: &Right,
    schema: &Schema,
) -> Result<Option<(u16, CheckedRight)>, AllocError>
    ensures { IfOk result (λ o. MatchOption o
        (may_set schema.now (kind_named schema.now.columns name.now) right.now ≡ false)
        (λ t. (may_set schema.now (kind_named schema.now.columns name.now) right.now ≡ true)
        × IsPlaced schema.now name.now right.now t.0 t.1)) }
{
    let Some(at) = schema.find(name) else {
        return Ok(None);
    };
    let Some(kind) = schema.kind(at) else {
        return Ok(None);
    };
    match placed_right(alloc, at, kind, right, schema)? {
        Some(value) => Ok(Some((at, value))),
        None => Ok(None),
    }
}

/// The checked form of what the column at a place, which has this type, is set to, where it may be.
fn placed_right(
    alloc: Global,
    target: u16,
    kind: Kind,
    right: &Right,
    schema: &Schema,
) -> Result<Option<CheckedRight>, AllocError>
    requires { kind_at schema.now.columns target ≡ Some kind }
    ensures { IfOk result (λ o. MatchOption o
        (may_be schema.now kind right.now ≡ false)
        (λ r. (may_be schema.now kind right.now ≡ true)
        × IsRight schema.now kind right.now r
        × RightFits schema.now target r)) }
{
    match right {
        Right::Literal(literal) => match literal.value_in(alloc, kind)? {
            Some(value) => Ok(Some(CheckedRight::Literal(value))),
            None => Ok(None),
        },
        Right::Column(name) => match place_of(name, kind, schema) {
            Some(column) => Ok(Some(CheckedRight::Column(column))),
            None => Ok(None),
        },
        Right::Plus { column, by } => match placed_number(
            alloc, target, kind, column, by, schema,
        )? {
            Some((column, by)) => Ok(Some(CheckedRight::Plus { column, by })),
            None => Ok(None),
        },
        Right::Minus { column, by } => match placed_number(
            alloc, target, kind, column, by, schema,
        )? {
            Some((column, by)) => Ok(Some(CheckedRight::Minus { column, by })),
            None => Ok(None),
        },
    }
}

/// The place of a column of numbers and the value of a literal, where both are of this type, which is that of the
/// column at the place `target`.
fn placed_number(
    alloc: Global,
    target: u16,
    kind: Kind,
    column: &Name,
    by: &Literal,
    schema: &Schema,
) -> Result<Option<(u16, Value)>, AllocError>
    requires { kind_at schema.now.columns target ≡ Some kind }
    ensures { IfOk result (λ o. MatchOption o
        (may_add schema.now kind column.now by.now ≡ false)
        (λ t. IsAdded schema.now target kind column.now by.now t.0 t.1)) }
{
    if !is_number(kind) {
        return Ok(None);
    }
    let Some(at) = place_of(column, kind, schema) else {
        return Ok(None);
    };
    match by.value_in(alloc, kind)? {
        Some(value) => Ok(Some((at, value))),
        None => Ok(None),
    }
}

/// The place of the column of this name, where it has this type.
fn place_of(name: &Name, kind: Kind, schema: &Schema) -> Option<u16>
    ensures { MatchOption result
        (is_kind kind (kind_named schema.now.columns name.now) ≡ false)
        (λ at. (is_kind kind (kind_named schema.now.columns name.now) ≡ true) × IsColumn schema.now name.now at kind) }
{
    let at = schema.find(name)?;
    let there = schema.kind(at)?;
    if is_same(there, kind) { Some(at) } else { None }
}

/// Whether two types are the same.
fn is_same(a: Kind, b: Kind) -> bool
    ensures test { result ≡ same_kind a b }
    ensures fact { result ≡ true → a ≡ b }
{
    match (a, b) {
        (Kind::UInt64, Kind::UInt64) | (Kind::Int64, Kind::Int64) | (Kind::Text, Kind::Text) =>
            true,
        _ => false,
    }
}

/// Whether it is a type of numbers.
fn is_number(kind: Kind) -> bool
    ensures { result ≡ has_numbers kind }
{
    match kind {
        Kind::UInt64 | Kind::Int64 => true,
        Kind::Text => false,
    }
}
