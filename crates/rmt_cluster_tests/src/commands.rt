//! Commands of the tests, which are written as statements.
ghost use Rattle.std.specs.Prelude.{IsTrue, IfOk};
ghost use Rattle.rmt_values.specs.Commands.{CommandFits};
ghost use Rattle.rmt_bytes.specs.Encoding.{IsInRange};
ghost use Rattle.rmt_entries.specs.EntryBytes.{CommandInRange, FilterInRange, SetInRange};
ghost use Rattle.rmt_cluster_tests.specs.SmallCommands.{AreFew};

use rmt_expr::check_mutation;
use rmt_sql::{Parsed, next_statement};
use rmt_statements::{Act, Statement};
use rmt_values::{Checked, CheckedMutation, CheckedRight, Mutation, Schema, Value};
use std::alloc::{AllocError, Global};
use std::test::Fail;

/// The command of a script's only statement; none where it isn't an ALTER.
fn written(alloc: Global, script: &str) -> Result<Option<Mutation>, AllocError> {
    match next_statement(alloc, script.as_bytes(), 0)? {
        Parsed::Statement {
            statement: Statement::At(sent),
            ..
        } => Ok(command_in(sent.act)),
        _ => Ok(None),
    }
}

/// The command of an act.
fn command_in(act: Act) -> Option<Mutation> {
    match act {
        Act::Mutate { command, .. } => Some(command),
        _ => None,
    }
}

/// A command as it is checked for the table: one whose filter is one comparison with a number, and which sets one or two columns.
pub(crate) fn command_of(
    alloc: Global,
    schema: &Schema,
    script: &str,
) -> Result<CheckedMutation, Fail>
    ensures fits { IfOk result (CommandFits schema.now) }
    ensures in_range { IfOk result CommandInRange }
{
    match written(alloc, script)? {
        Some(command) => small(alloc, schema, &command),
        None => Err("no command".into()),
    }
}

/// The checked form of such a command.
fn small(alloc: Global, schema: &Schema, command: &Mutation) -> Result<CheckedMutation, Fail>
    ensures fits { IfOk result (CommandFits schema.now) }
    ensures in_range { IfOk result CommandInRange }
{
    let Ok(checked) = check_mutation(alloc, command, schema) else {
        return Err("no command of the table".into());
    };
    if !is_small(&checked) {
        return Err("the command is too large".into());
    }
    Ok(checked)
}

/// Whether a command's filter is one comparison with a number, and it sets one column or two.
fn is_small(command: &CheckedMutation) -> bool
    ensures { IsTrue result → CommandInRange command.now }
{
    match command {
        CheckedMutation::Delete { filter } => is_one_test(filter),
        CheckedMutation::Update { sets, filter } => {
            are_few(sets.as_slice()) && is_one_test(filter)
        }
    }
}

/// Whether these are one or two sets.
fn are_few(sets: &[(u16, CheckedRight)]) -> bool
    ensures { IsTrue result → AreFew sets.now }
{
    match sets {
        [one] => is_number(one),
        [one, two] => is_number(one) && is_number(two),
        _ => false,
    }
}

/// Whether a column is set to a number or to a column.
fn is_number(set: &(u16, CheckedRight)) -> bool
    ensures { IsTrue result → SetInRange set.now }
{
    let _target = set.0;
    match &set.1 {
        CheckedRight::Literal(value) => is_uint(value),
        CheckedRight::Column(column) => {
            let _column = *column;
            true
        }
        CheckedRight::Plus { column, by } | CheckedRight::Minus { column, by } => {
            let _column = *column;
            is_uint(by)
        }
    }
}

/// Whether a filter is one comparison with a number.
fn is_one_test(filter: &Checked) -> bool
    ensures { IsTrue result → FilterInRange 512 filter.now }
{
    match filter {
        Checked::Test { column, value, .. } => {
            let _column = *column;
            is_uint(value)
        }
        _ => false,
    }
}

/// Whether a value is a number of 64 bits.
fn is_uint(value: &Value) -> bool
    ensures { IsTrue result → IsInRange value.now }
{
    match value {
        Value::UInt(number) => {
            let _number = *number;
            true
        }
        _ => false,
    }
}
