//! Filters: no more than 256 comparisons, no more than 64 open NOTs and parentheses; so none is too deep to be dropped.
ghost use Rattle.std.specs.Prelude.{◌≡◌, ◌≤◌, ◌+◌, IfOk};
ghost use Rattle.rmt_sql_tokens.specs.Lexing.{tokens};
ghost use Rattle.rmt_sql_tokens.specs.Exact.{ReadsAs};
ghost use Rattle.rmt_values.specs.declared.filter.Filter.TheVariants.{Both, Either, Not, Test};
ghost use Rattle.rmt_sql_acts.specs.Phrases.{tests_in};
ghost use Rattle.rmt_sql_acts.specs.Phrases.{comparison as comparison_rule, unary as unary_rule, conj as conj_rule, disj as disj_rule, filter as filter_rule, where_filter as where_rule};

use crate::parts::literal;
use rmt_list::Boxed;
use rmt_sql_tokens::{
    Cursor, ReadError, SymbolKind, column, comparison as compared, keyword, left, next_keyword,
    next_symbol, symbol,
};
use rmt_values::{Filter, Name};
use std::alloc::{AllocError, Global};

/// The most comparisons of a filter.
const MOST_COMPARISONS: usize = 256;
/// The most open NOTs and parentheses.
const MOST_DEPTH: u32 = 64;

/// Both of two filters.
fn both(alloc: Global, first: Filter, second: Filter) -> Result<Filter, AllocError>
    ensures { IfOk result (λ f. f ≡ Both first second) }
{
    let first = Boxed::new(alloc, first)?;
    let second = Boxed::new(alloc, second)?;
    Ok(Filter::Both(first, second))
}

/// One of two filters, or both.
fn either(alloc: Global, first: Filter, second: Filter) -> Result<Filter, AllocError>
    ensures { IfOk result (λ f. f ≡ Either first second) }
{
    let first = Boxed::new(alloc, first)?;
    let second = Boxed::new(alloc, second)?;
    Ok(Filter::Either(first, second))
}

/// The opposite of a filter.
fn opposite(alloc: Global, filter: Filter) -> Result<Filter, AllocError>
    ensures { IfOk result (λ f. f ≡ Not filter) }
{
    let filter = Boxed::new(alloc, filter)?;
    Ok(Filter::Not(filter))
}

/// column cmp literal, after so many comparisons of the same filter.
#[tactic(auto, unfolding(crate::specs::Phrases::comparison))]
fn comparison(
    alloc: Global,
    before: usize,
    at: Cursor<'_>,
) -> Result<(Filter, usize, Cursor<'_>), ReadError>
    requires few { before ≤ 256 }
    ensures reads { ReadsAs (λ x. (x.0, tokens x.2)) result ((comparison_rule before).read (tokens at.entry)) }
    ensures count { IfOk result (λ x. (x.1 ≡ before + tests_in x.0) × (x.1 ≤ 256)) }
{
    if before >= MOST_COMPARISONS {
        return Err(ReadError::Fault(left(at)));
    }
    let (column, at) = column(at)?;
    let (cmp, at) = compared(at)?;
    let (literal, at) = literal(alloc, at)?;
    let column = Name::from_slice(alloc, column)?;
    let filter = Filter::Test {
        column,
        cmp,
        literal,
    };
    Ok((filter, before + 1, at))
}

/// NOT unary | ( filter ) | comparison, with so many NOTs and parentheses open at most.
#[tactic(auto, unfolding(crate::specs::Phrases::unary))]
#[cycle(filters)]
fn unary(
    alloc: Global,
    before: usize,
    depth: u32,
    at: Cursor<'_>,
) -> Result<(Filter, usize, Cursor<'_>), ReadError>
    requires few { before ≤ 256 }
    ensures reads { ReadsAs (λ x. (x.0, tokens x.2)) result ((unary_rule depth before).read (tokens at.entry)) }
    ensures count { IfOk result (λ x. (x.1 ≡ before + tests_in x.0) × (x.1 ≤ 256)) }
{
    if depth == 0 {
        return comparison(alloc, before, at);
    }
    if let Some(at) = next_keyword(at, b"not") {
        let (filter, total, at) = unary(alloc, before, depth - 1, at)?;
        let filter = opposite(alloc, filter)?;
        return Ok((filter, total, at));
    }
    if let Some(at) = next_symbol(at, SymbolKind::Open) {
        let (filter, total, at) = disj(alloc, before, depth - 1, at)?;
        let at = symbol(at, SymbolKind::Close)?;
        return Ok((filter, total, at));
    }
    comparison(alloc, before, at)
}

/// unary { AND unary }
#[cycle(filters)]
fn conj(
    alloc: Global,
    before: usize,
    depth: u32,
    at: Cursor<'_>,
) -> Result<(Filter, usize, Cursor<'_>), ReadError>
    requires few { before ≤ 256 }
    ensures reads { ReadsAs (λ x. (x.0, tokens x.2)) result ((conj_rule (unary_rule depth) before).read (tokens at.entry)) }
    ensures count { IfOk result (λ x. (x.1 ≡ before + tests_in x.0) × (x.1 ≤ 256)) }
{
    let (mut filter, mut total, mut rest) = unary(alloc, before, depth, at)?;
    'others: loop {
        let Some(after) = next_keyword(rest, b"and") else {
            return Ok((filter, total, rest));
        };
        let (other, sum, later) = unary(alloc, total, depth, after)?;
        filter = both(alloc, filter, other)?;
        total = sum;
        rest = later;
    }
}

/// conj { OR conj }
#[cycle(filters)]
fn disj(
    alloc: Global,
    before: usize,
    depth: u32,
    at: Cursor<'_>,
) -> Result<(Filter, usize, Cursor<'_>), ReadError>
    requires few { before ≤ 256 }
    ensures reads { ReadsAs (λ x. (x.0, tokens x.2)) result ((disj_rule (unary_rule depth) before).read (tokens at.entry)) }
    ensures count { IfOk result (λ x. (x.1 ≡ before + tests_in x.0) × (x.1 ≤ 256)) }
{
    let (mut filter, mut total, mut rest) = conj(alloc, before, depth, at)?;
    'others: loop {
        let Some(after) = next_keyword(rest, b"or") else {
            return Ok((filter, total, rest));
        };
        let (other, sum, later) = conj(alloc, total, depth, after)?;
        filter = either(alloc, filter, other)?;
        total = sum;
        rest = later;
    }
}

/// Reads WHERE and a filter. The error is the place of the first token that can't follow, a limit's too, or out of memory.
#[tactic(auto, unfolding(crate::specs::Phrases::where_filter, crate::specs::Phrases::filter))]
pub fn where_filter(alloc: Global, at: Cursor<'_>) -> Result<(Filter, Cursor<'_>), ReadError>
    ensures { ReadsAs (λ x. (x.0, tokens x.1)) result ((where_rule).read (tokens at.entry)) }
{
    let at = keyword(at, b"where")?;
    let (filter, _, at) = disj(alloc, 0, MOST_DEPTH, at)?;
    Ok((filter, at))
}
