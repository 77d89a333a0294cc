//! ALTER and OPTIMIZE.
ghost use Rattle.std.specs.Prelude.{◌≡◌, Some, codes};
ghost use Rattle.rmt_sql_tokens.specs.Lexing.{tokens};
ghost use Rattle.rmt_sql_tokens.specs.Exact.{ReadsAs, token, maybe};
ghost use Rattle.rmt_sql_acts.specs.Phrases.{word as word_class};
ghost use Rattle.rmt_sql_acts.specs.Acts.{an_operator, operator_of as operator_in, change as change_rule, change_of, column_right as column_rule, right as right_rule, assignment as assignment_rule, assignments as assignments_rule, update as update_rule, delete as delete_rule, partition_word as partition_rule, partition_named as named_rule, drop_partition as drop_rule, alter as alter_rule, optimize as optimize_rule};

use crate::filters::where_filter;
use crate::list_item::{ListItem, listed};
use crate::operator::Operator;
use crate::parts::{literal, name};
use rmt_list::List;
use rmt_sql_tokens::{
    Cursor, ReadError, SymbolKind, Token, end, exactly, is_keyword_next, is_number_next,
    is_some_word_next, is_symbol_next, is_word_next, keyword, next_token, number, symbol, text,
};
use rmt_statements::{Act, PartitionWord};
use rmt_values::{Literal, Mutation, Name, Right};
use std::alloc::Global;

/// A plus or a minus.
fn operator_of(kind: SymbolKind) -> Option<Operator>
    ensures { result ≡ operator_in kind }
{
    match kind {
        SymbolKind::Plus => Some(Operator::Plus),
        SymbolKind::Minus => Some(Operator::Minus),
        _ => None,
    }
}

/// Reads a plus or a minus.
fn operator(at: Cursor<'_>) -> Result<(Operator, Cursor<'_>), ReadError>
    ensures { ReadsAs (λ x. (x.0, tokens x.1)) result ((token an_operator).read (tokens at.entry)) }
{
    match next_token(at) {
        None => Err(ReadError::Fault(0)),
        Some(next) => match next.token {
            Token::Symbol(kind) => match operator_of(kind) {
                Some(operator) => Ok((operator, next.rest)),
                None => Err(ReadError::Fault(next.left)),
            },
            _ => Err(ReadError::Fault(next.left)),
        },
    }
}

/// + number | - number
#[tactic(auto, unfolding(crate::specs::Acts::change))]
fn change(at: Cursor<'_>) -> Result<((Operator, u128), Cursor<'_>), ReadError>
    ensures { ReadsAs (λ x. (x.0, tokens x.1)) result ((change_rule).read (tokens at.entry)) }
{
    let (operator, at) = operator(at)?;
    let (number, at) = number(at)?;
    Ok(((operator, number), at))
}

/// A column, or what a change makes of it.
fn changed(column: Name, operator: Operator, size: u128) -> Right
    ensures { result ≡ change_of column (Some (operator, size)) }
{
    let by = Literal::Number { minus: false, size };
    match operator {
        Operator::Plus => Right::Plus { column, by },
        Operator::Minus => Right::Minus { column, by },
    }
}

/// column | column + number | column - number
#[tactic(auto, unfolding(crate::specs::Acts::column_right))]
fn column_right(alloc: Global, at: Cursor<'_>) -> Result<(Right, Cursor<'_>), ReadError>
    ensures { ReadsAs (λ x. (x.0, tokens x.1)) result ((column_rule).read (tokens at.entry)) }
{
    let (column, at) = name(alloc, at)?;
    if is_symbol_next(at, SymbolKind::Plus) || is_symbol_next(at, SymbolKind::Minus) {
        let ((operator, size), at) = change(at)?;
        return Ok((changed(column, operator, size), at));
    }
    Ok((Right::Column(column), at))
}

/// literal | column | column + number | column - number
#[tactic(auto, unfolding(crate::specs::Acts::right, crate::specs::Acts::literal_right))]
fn right(alloc: Global, at: Cursor<'_>) -> Result<(Right, Cursor<'_>), ReadError>
    ensures { ReadsAs (λ x. (x.0, tokens x.1)) result ((right_rule).read (tokens at.entry)) }
{
    if is_some_word_next(at) {
        return column_right(alloc, at);
    }
    let (value, at) = literal(alloc, at)?;
    Ok((Right::Literal(value), at))
}

/// column = right
#[tactic(auto, unfolding(crate::specs::Acts::assignment))]
fn assignment(alloc: Global, at: Cursor<'_>) -> Result<((Name, Right), Cursor<'_>), ReadError>
    ensures { ReadsAs (λ x. (x.0, tokens x.1)) result ((assignment_rule).read (tokens at.entry)) }
{
    let (column, at) = name(alloc, at)?;
    let at = symbol(at, SymbolKind::Equal)?;
    let (right, at) = right(alloc, at)?;
    Ok(((column, right), at))
}

/// An assignment in a list.
struct AssignmentItem;

impl ListItem for AssignmentItem {
    type Value = (Name, Right);

    ghost rule = { assignment_rule };

    fn read(alloc: Global, at: Cursor<'_>) -> Result<((Name, Right), Cursor<'_>), ReadError> {
        assignment(alloc, at)
    }
}

/// assignment { , assignment }
#[tactic(auto, unfolding(crate::specs::Acts::assignments))]
fn assignments(
    alloc: Global,
    at: Cursor<'_>,
) -> Result<(List<(Name, Right)>, Cursor<'_>), ReadError>
    ensures { ReadsAs (λ x. (x.0, tokens x.1)) result ((assignments_rule).read (tokens at.entry)) }
{
    listed::<AssignmentItem>(alloc, at)
}

/// UPDATE assignments WHERE filter ;
#[tactic(auto, unfolding(crate::specs::Acts::update))]
fn update(alloc: Global, table: Name, at: Cursor<'_>) -> Result<(Act, usize, Cursor<'_>), ReadError>
    ensures { ReadsAs (λ x. ((x.0, x.1), tokens x.2)) result ((update_rule table).read (tokens at.entry)) }
{
    let at = keyword(at, b"update")?;
    let (sets, at) = assignments(alloc, at)?;
    let (filter, at) = where_filter(alloc, at)?;
    let (left, at) = end(at)?;
    let command = Mutation::Update { sets, filter };
    Ok((Act::Mutate { table, command }, left, at))
}

/// DELETE WHERE filter ;
#[tactic(auto, unfolding(crate::specs::Acts::delete))]
fn delete(alloc: Global, table: Name, at: Cursor<'_>) -> Result<(Act, usize, Cursor<'_>), ReadError>
    ensures { ReadsAs (λ x. ((x.0, x.1), tokens x.2)) result ((delete_rule table).read (tokens at.entry)) }
{
    let at = keyword(at, b"delete")?;
    let (filter, at) = where_filter(alloc, at)?;
    let (left, at) = end(at)?;
    let command = Mutation::Delete { filter };
    Ok((Act::Mutate { table, command }, left, at))
}

/// number | tuple ( ) | ID text
#[tactic(auto, unfolding(crate::specs::Acts::partition_word, crate::specs::Acts::tuple_word, crate::specs::Acts::id_word))]
fn partition_word(alloc: Global, at: Cursor<'_>) -> Result<(PartitionWord, Cursor<'_>), ReadError>
    ensures { ReadsAs (λ x. (x.0, tokens x.1)) result ((partition_rule).read (tokens at.entry)) }
{
    if is_number_next(at) {
        let (number, at) = number(at)?;
        return Ok((PartitionWord::Number(number), at));
    }
    if is_word_next(at, b"tuple") {
        let at = exactly(at, b"tuple")?;
        let at = symbol(at, SymbolKind::Open)?;
        let at = symbol(at, SymbolKind::Close)?;
        return Ok((PartitionWord::Tuple, at));
    }
    let at = keyword(at, b"id")?;
    let (text, at) = text(alloc, at)?;
    Ok((PartitionWord::Id(text), at))
}

/// PARTITION partition
#[tactic(auto, unfolding(crate::specs::Acts::partition_named))]
fn partition_named(alloc: Global, at: Cursor<'_>) -> Result<(PartitionWord, Cursor<'_>), ReadError>
    ensures { ReadsAs (λ x. (x.0, tokens x.1)) result ((named_rule).read (tokens at.entry)) }
{
    let at = keyword(at, b"partition")?;
    let (partition, at) = partition_word(alloc, at)?;
    Ok((partition, at))
}

/// [ PARTITION partition ]
fn some_partition(
    alloc: Global,
    at: Cursor<'_>,
) -> Result<(Option<PartitionWord>, Cursor<'_>), ReadError>
    ensures { ReadsAs (λ x. (x.0, tokens x.1)) result ((maybe (word_class (codes "partition")) named_rule).read (tokens at.entry)) }
{
    if !is_keyword_next(at, b"partition") {
        return Ok((None, at));
    }
    let (partition, at) = partition_named(alloc, at)?;
    Ok((Some(partition), at))
}

/// DROP PARTITION partition ;
#[tactic(auto, unfolding(crate::specs::Acts::drop_partition))]
fn drop_partition(
    alloc: Global,
    table: Name,
    at: Cursor<'_>,
) -> Result<(Act, usize, Cursor<'_>), ReadError>
    ensures { ReadsAs (λ x. ((x.0, x.1), tokens x.2)) result ((drop_rule table).read (tokens at.entry)) }
{
    let at = keyword(at, b"drop")?;
    let (partition, at) = partition_named(alloc, at)?;
    let (left, at) = end(at)?;
    Ok((Act::DropPartition { table, partition }, left, at))
}

/// ALTER TABLE table and what is done.
#[tactic(auto, unfolding(crate::specs::Acts::alter))]
pub(crate) fn alter(alloc: Global, at: Cursor<'_>) -> Result<(Act, usize, Cursor<'_>), ReadError>
    ensures { ReadsAs (λ x. ((x.0, x.1), tokens x.2)) result ((alter_rule).read (tokens at.entry)) }
{
    let at = keyword(at, b"alter")?;
    let at = keyword(at, b"table")?;
    let (table, at) = name(alloc, at)?;
    if is_keyword_next(at, b"update") {
        return update(alloc, table, at);
    }
    if is_keyword_next(at, b"delete") {
        return delete(alloc, table, at);
    }
    drop_partition(alloc, table, at)
}

/// OPTIMIZE TABLE table [ PARTITION partition ] FINAL ;
#[tactic(auto, unfolding(crate::specs::Acts::optimize))]
pub(crate) fn optimize(alloc: Global, at: Cursor<'_>) -> Result<(Act, usize, Cursor<'_>), ReadError>
    ensures { ReadsAs (λ x. ((x.0, x.1), tokens x.2)) result ((optimize_rule).read (tokens at.entry)) }
{
    let at = keyword(at, b"optimize")?;
    let at = keyword(at, b"table")?;
    let (table, at) = name(alloc, at)?;
    let (partition, at) = some_partition(alloc, at)?;
    let at = keyword(at, b"final")?;
    let (left, at) = end(at)?;
    Ok((Act::Optimize { table, partition }, left, at))
}
