//! The bounds that a filter gives.
ghost use Rattle.std.specs.Prelude.{◌≡◌, List, [], ◌++◌, IfOk, cond, nat_eq};
ghost use Rattle.std.specs.Option.{option_to_list};
ghost use Rattle.rmt_values.specs.declared.value.Value.{Value as OneValue};
ghost use Rattle.rmt_keyrange.specs.Ranges.{lows, highs, bounds_by, IsGreatest, IsLeast, IsRangeOf};

use crate::key_range::KeyRange;
use rmt_values::{Checked, Cmp, Schema, Value};
use std::alloc::AllocError;

/// The bounds that a filter gives on the first column of the schema's key: the greatest literal that its top-level AND
/// terms require the column to equal or exceed, and the least that they require it to equal or stay below.
pub fn range_of(filter: &Checked, schema: &Schema) -> Result<KeyRange, AllocError>
    ensures { IfOk result (λ range. IsRangeOf schema.now.key filter.now range) }
{
    match schema.key() {
        [] => Ok(KeyRange {
            low: None,
            high: None,
        }),
        [first, ..] => bounds_on(filter, *first),
    }
}

/// The bounds that a filter gives on a column.
fn bounds_on(filter: &Checked, column: u16) -> Result<KeyRange, AllocError>
    ensures low { IfOk result (λ range. IsGreatest range.low (lows column filter.now)) }
    ensures high { IfOk result (λ range. IsLeast range.high (highs column filter.now)) }
{
    match filter {
        Checked::Test {
            column: at,
            cmp,
            value,
        } => tested(*at, *cmp, value, column),
        Checked::Both(f, g) => {
            let (first, second) = (bounds_on(f.get(), column)?, bounds_on(g.get(), column)?);
            Ok(KeyRange {
                low: greatest(first.low, second.low),
                high: least(first.high, second.high),
            })
        }
        Checked::Either(_, _) | Checked::Not(_) => Ok(KeyRange {
            low: None,
            high: None,
        }),
    }
}

/// The bounds that a test of the column at a place gives on a column.
#[tactic(auto, using(crate::proofs::GivenBounds::one_greatest, crate::proofs::GivenBounds::one_least))]
fn tested(at: u16, cmp: Cmp, value: &Value, column: u16) -> Result<KeyRange, AllocError>
    ensures low { IfOk result (λ range. IsGreatest range.low
        (cond (nat_eq at column) (option_to_list ((bounds_by cmp value.now).low)) [])) }
    ensures high { IfOk result (λ range. IsLeast range.high
        (cond (nat_eq at column) (option_to_list ((bounds_by cmp value.now).high)) [])) }
{
    if at == column {
        return compared(cmp, value);
    }
    Ok(KeyRange {
        low: None,
        high: None,
    })
}

/// The bounds that a comparison with a value gives.
fn compared(cmp: Cmp, value: &Value) -> Result<KeyRange, AllocError>
    ensures { IfOk result (λ range. range ≡ bounds_by cmp value.now) }
{
    match cmp {
        Cmp::Eq => Ok(KeyRange {
            low: Some(value.copy()?),
            high: Some(value.copy()?),
        }),
        Cmp::Gt | Cmp::Ge => Ok(KeyRange {
            low: Some(value.copy()?),
            high: None,
        }),
        Cmp::Lt | Cmp::Le => Ok(KeyRange {
            low: None,
            high: Some(value.copy()?),
        }),
        Cmp::Ne => Ok(KeyRange {
            low: None,
            high: None,
        }),
    }
}

/// The greater of two values, where there are two.
fn greatest(a: Option<Value>, b: Option<Value>) -> Option<Value>
    ensures { (xs ys : List OneValue) → IsGreatest a xs → IsGreatest b ys → IsGreatest result (xs ++ ys) }
{
    match (a, b) {
        (None, b) => b,
        (a, None) => a,
        (Some(a), Some(b)) => {
            if a.compare(&b).is_lt() {
                Some(b)
            } else {
                Some(a)
            }
        }
    }
}

/// The lesser of two values, where there are two.
fn least(a: Option<Value>, b: Option<Value>) -> Option<Value>
    ensures { (xs ys : List OneValue) → IsLeast a xs → IsLeast b ys → IsLeast result (xs ++ ys) }
{
    match (a, b) {
        (None, b) => b,
        (a, None) => a,
        (Some(a), Some(b)) => {
            if a.compare(&b).is_gt() {
                Some(b)
            } else {
                Some(a)
            }
        }
    }
}
