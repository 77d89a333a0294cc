//! Names and literals. A reader gives what it read and the place after it; its error is the place of the first token
//! that can't follow, or out of memory.
ghost use Rattle.std.specs.Prelude.{◌≡◌};
ghost use Rattle.std.specs.Str.{bytes_eq};
ghost use Rattle.rmt_sql_tokens.specs.Lexing.{tokens};
ghost use Rattle.rmt_sql_tokens.specs.Singles.{a_word};
ghost use Rattle.rmt_sql_tokens.specs.Exact.{ReadsAs, token, maybe};
ghost use Rattle.rmt_sql_acts.specs.Phrases.{opening, literal as literal_rule, names as names_rule, names_in_parentheses as parentheses_rule};

use crate::list_item::{ListItem, listed};
use rmt_list::List;
use rmt_sql_tokens::{
    Cursor, ReadError, SymbolKind, is_symbol_next, is_text_next, number, symbol, text, word,
};
use rmt_values::{Literal, Name};
use std::alloc::Global;

/// Whether a word is this very text.
pub fn is_exactly(word: &[u8], text: &[u8]) -> bool
    ensures { result ≡ bytes_eq word.now text.now }
{
    word == text
}

/// Reads a word as a name.
pub fn name(alloc: Global, at: Cursor<'_>) -> Result<(Name, Cursor<'_>), ReadError>
    ensures { ReadsAs (λ x. (x.0, tokens x.1)) result ((token a_word).read (tokens at.entry)) }
{
    let (name, at) = word(at)?;
    let name = Name::from_slice(alloc, name)?;
    Ok((name, at))
}

/// A name in a list.
struct NameItem;

impl ListItem for NameItem {
    type Value = Name;

    ghost rule = { token a_word };

    fn read(alloc: Global, at: Cursor<'_>) -> Result<(Name, Cursor<'_>), ReadError> {
        name(alloc, at)
    }
}

/// Reads names: word { , word }
#[tactic(auto, unfolding(crate::specs::Phrases::names))]
pub fn names(alloc: Global, at: Cursor<'_>) -> Result<(List<Name>, Cursor<'_>), ReadError>
    ensures { ReadsAs (λ x. (x.0, tokens x.1)) result ((names_rule).read (tokens at.entry)) }
{
    listed::<NameItem>(alloc, at)
}

/// Reads names in parentheses: ( names )
#[tactic(auto, unfolding(crate::specs::Phrases::names_in_parentheses))]
pub fn names_in_parentheses(
    alloc: Global,
    at: Cursor<'_>,
) -> Result<(List<Name>, Cursor<'_>), ReadError>
    ensures { ReadsAs (λ x. (x.0, tokens x.1)) result ((parentheses_rule).read (tokens at.entry)) }
{
    let at = symbol(at, SymbolKind::Open)?;
    let (all, at) = names(alloc, at)?;
    let at = symbol(at, SymbolKind::Close)?;
    Ok((all, at))
}

/// Reads names in parentheses where they are, and nothing else: \[ ( names ) \]
pub fn some_names(
    alloc: Global,
    at: Cursor<'_>,
) -> Result<(Option<List<Name>>, Cursor<'_>), ReadError>
    ensures { ReadsAs (λ x. (x.0, tokens x.1)) result ((maybe opening parentheses_rule).read (tokens at.entry)) }
{
    if !is_symbol_next(at, SymbolKind::Open) {
        return Ok((None, at));
    }
    let (all, at) = names_in_parentheses(alloc, at)?;
    Ok((Some(all), at))
}

/// Reads a literal: \[ - \] number | text
#[tactic(auto, unfolding(crate::specs::Phrases::literal))]
pub fn literal(alloc: Global, at: Cursor<'_>) -> Result<(Literal, Cursor<'_>), ReadError>
    ensures { ReadsAs (λ x. (x.0, tokens x.1)) result ((literal_rule).read (tokens at.entry)) }
{
    if is_text_next(at) {
        let (text, at) = text(alloc, at)?;
        return Ok((Literal::Text(text), at));
    }
    if is_symbol_next(at, SymbolKind::Minus) {
        let at = symbol(at, SymbolKind::Minus)?;
        let (size, at) = number(at)?;
        return Ok((Literal::Number { minus: true, size }, at));
    }
    let (size, at) = number(at)?;
    Ok((Literal::Number { minus: false, size }, at))
}

/// A literal in a list.
pub(crate) struct LiteralItem;

impl ListItem for LiteralItem {
    type Value = Literal;

    ghost rule = { literal_rule };

    fn read(alloc: Global, at: Cursor<'_>) -> Result<(Literal, Cursor<'_>), ReadError> {
        literal(alloc, at)
    }
}
