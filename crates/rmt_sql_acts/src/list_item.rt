//! Lists between commas.
ghost use Rattle.std.specs.Prelude.{◌≡◌, ◌<◌, length, IfOk};
ghost use Rattle.rmt_sql_tokens.specs.Lexing.{tokens};
ghost use Rattle.rmt_sql_tokens.specs.Exact.{ReadsAs, Rule, item as item_rule};
ghost use Rattle.rmt_sql_acts.specs.Phrases.{listed as listed_rule, more_listed as more_rule};

use rmt_list::List;
use rmt_sql_tokens::{Cursor, ReadError, SymbolKind, next_symbol};
use std::alloc::Global;

/// What is written in a list between commas.
pub trait ListItem {
    /// What one says.
    type Value: Drop;

    /// How one is written.
    ghost rule: { Rule Self.Value };

    /// Reads one. It takes a token at least.
    fn read(alloc: Global, at: Cursor<'_>) -> Result<(Self::Value, Cursor<'_>), ReadError>
        ensures reads { ReadsAs (λ x. (x.0, tokens x.1)) result
            (rule.read (tokens at.entry)) }
        ensures takes { IfOk result (λ x. length (tokens x.1) < length (tokens at.entry)) };
}

/// One more item.
fn item<'a, T: ListItem>(
    alloc: Global,
    all: &mut Vec<T::Value>,
    at: Cursor<'a>,
) -> Result<Cursor<'a>, ReadError>
    ensures reads { ReadsAs (λ r. (all.new.items, tokens r)) result
        ((item_rule T.rule all.old.items).read (tokens at.entry)) }
    ensures takes { IfOk result (λ r. length (tokens r) < length (tokens at.entry)) }
{
    let (one, at) = T::read(alloc, at)?;
    all.push(one)?;
    Ok(at)
}

/// Further items, each after a comma.
fn more<'a, T: ListItem>(
    alloc: Global,
    all: &mut Vec<T::Value>,
    at: Cursor<'a>,
) -> Result<Cursor<'a>, ReadError>
    ensures { ReadsAs (λ r. (all.new.items, tokens r)) result
        ((more_rule T.rule all.old.items).read (tokens at.entry)) }
{
    let mut rest = at;
    'items: loop {
        let Some(after) = next_symbol(rest, SymbolKind::Comma) else {
            return Ok(rest);
        };
        rest = item::<T>(alloc, all, after)?;
    }
}

/// Reads a list: item { , item }
pub fn listed<T: ListItem>(
    alloc: Global,
    at: Cursor<'_>,
) -> Result<(List<T::Value>, Cursor<'_>), ReadError>
    ensures { ReadsAs (λ x. (x.0, tokens x.1)) result
        ((listed_rule T.rule).read (tokens at.entry)) }
{
    let mut all = Vec::new(alloc);
    let at = item::<T>(alloc, &mut all, at)?;
    let at = more::<T>(alloc, &mut all, at)?;
    Ok((List::new(all), at))
}
