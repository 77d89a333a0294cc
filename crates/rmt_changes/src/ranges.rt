//! Ranges of checked commands.
ghost use Rattle.std.specs.Prelude.{◌≡◌, ◌≤◌, ℕ, true};
ghost use Rattle.std.specs.List.{AllByRecursion};
ghost use Rattle.std.specs.declared.option.Option.TheVariants.{None};
ghost use Rattle.rmt_values.specs.Rows.{Shape, is_value};
ghost use Rattle.rmt_values.specs.Schemas.{IsSchema};
ghost use Rattle.rmt_values.specs.Filters.{FilterFits};
ghost use Rattle.rmt_values.specs.Commands.{CommandFits, SetsFit, RightFits};
ghost use Rattle.rmt_values.specs.declared.value.Value.TheVariants.{Text};
ghost use Rattle.rmt_values.specs.declared.mutation.Mutation.{Mutation as Written};
ghost use Rattle.rmt_bytes.specs.Encoding.{IsInRange};
ghost use Rattle.rmt_entries.specs.EntryBytes.{CommandInRange, FilterInRange, RightInRange, SetInRange, depth};
ghost use Rattle.rmt_expr.specs.Mutations.{IsCheckedMutation, mutation_refusal};
ghost use Rattle.rmt_expr.specs.Sizes.{IsSmallCommand};

use rmt_values::{Checked, CheckedMutation, CheckedRight, Value};

/// Says that the checked form of a small command that isn't refused has bytes. It looks at each value, whose width its type
/// tells, and changes nothing.
pub fn range_of_command(command: &CheckedMutation)
    requires { (schema : Shape) × (m : Written) × IsCheckedMutation schema m command.now × CommandFits schema command.now
        × IsSmallCommand 512 m × IsSchema schema × (mutation_refusal schema m ≡ None) }
    ensures { CommandInRange command.now }
{
    match command {
        CheckedMutation::Update { sets, filter } => {
            range_of_sets(sets.as_slice());
            range_of_filter(filter);
        }
        CheckedMutation::Delete { filter } => range_of_filter(filter),
    }
}

/// Says that the sets of an UPDATE have bytes.
fn range_of_sets(sets: &[(u16, CheckedRight)])
    requires { (schema : Shape) × SetsFit schema sets.now }
    ensures { AllByRecursion SetInRange sets.now }
{
    let mut rest = sets;
    'sets: while let [first, others @ ..] = rest {
        range_of_set(first);
        rest = others;
    }
}

/// Says that a set has bytes.
fn range_of_set(set: &(u16, CheckedRight))
    requires { (schema : Shape) × RightFits schema set.now.0 set.now.1 }
    ensures { SetInRange set.now }
{
    let _column = set.0;
    range_of_right(&set.1);
}

/// Says that a right side has bytes.
fn range_of_right(right: &CheckedRight)
    requires { (schema : Shape) × (target : ℕ) × RightFits schema target right.now }
    ensures { RightInRange right.now }
{
    match right {
        CheckedRight::Literal(value) => range_of_value(value),
        CheckedRight::Column(column) => {
            let _column = *column;
        }
        CheckedRight::Plus { column, by } | CheckedRight::Minus { column, by } => {
            let _column = *column;
            range_of_value(by);
        }
    }
}

/// Says that a filter has bytes. It recurses as deep as the filter nests.
fn range_of_filter(filter: &Checked)
    requires fits { (schema : Shape) × FilterFits schema filter.now }
    requires deep { depth filter.now ≤ 512 }
    ensures { FilterInRange 512 filter.now }
{
    match filter {
        Checked::Test { column, value, .. } => {
            let _column = *column;
            range_of_value(value);
        }
        Checked::Both(f, g) | Checked::Either(f, g) => {
            range_of_filter(f.get());
            range_of_filter(g.get());
        }
        Checked::Not(f) => range_of_filter(f.get()),
    }
}

/// Says that a value has bytes.
fn range_of_value(value: &Value)
    requires { is_value value.now ≡ true }
    ensures { IsInRange value.now }
{
    match value {
        Value::UInt(number) => {
            let _number = *number;
        }
        Value::Int(number) => {
            let _number = *number;
        }
        Value::Text(text) => range_of_text(text.as_bytes()),
    }
}

/// Says that a String has bytes: its length fits, and each of its own is a byte, as its type tells.
fn range_of_text(bytes: &[u8])
    requires { is_value (Text bytes.now) ≡ true }
    ensures { IsInRange (Text bytes.now) }
{}
