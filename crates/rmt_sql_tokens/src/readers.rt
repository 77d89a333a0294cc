ghost use Rattle.std.specs.Prelude.{◌≡◌, [], ◌∷◌, false};
ghost use Rattle.rmt_sql_tokens.specs.Lexing.{tokens, Skips};
ghost use Rattle.rmt_sql_tokens.specs.Classes.{Keyword, Exactly, Sign, AnyWord, AnyNumber, AnyText, End, Limit, next_among, is_same as same_test, is_connective as connective_test};
ghost use Rattle.rmt_sql_tokens.specs.Exact.{ReadsAs, one, left_of};
ghost use Rattle.rmt_sql_tokens.specs.Singles.{keyword as a_keyword, exactly as an_exact, symbol as a_symbol, a_word, a_column, a_number, this_number as this_one, a_text, some_data, a_comparison, comparison_of, an_end, a_semicolon};

use crate::cursor::Cursor;
use crate::lexing::{is_keyword, next_token};
use crate::quoted::{text_len, text_of};
use crate::read_error::ReadError;
use crate::symbol_kind::SymbolKind;
use crate::token::Token;
use rmt_values::{Blob, Cmp};
use std::alloc::Global;

/// Whether two symbols are the same.
fn is_same(kind: SymbolKind, other: SymbolKind) -> bool
    ensures { result ≡ same_test kind other }
{
    kind == other
}

/// Whether a word is none for a column in a filter.
fn is_connective(word: &[u8]) -> bool
    ensures { result ≡ connective_test word.now }
{
    is_keyword(word, b"not") || is_keyword(word, b"and") || is_keyword(word, b"or")
}

/// The comparison that a symbol is.
fn comparison_in(kind: SymbolKind) -> Option<Cmp>
    ensures { result ≡ comparison_of kind }
{
    match kind {
        SymbolKind::Equal => Some(Cmp::Eq),
        SymbolKind::Differs => Some(Cmp::Ne),
        SymbolKind::Less => Some(Cmp::Lt),
        SymbolKind::AtMost => Some(Cmp::Le),
        SymbolKind::Greater => Some(Cmp::Gt),
        SymbolKind::AtLeast => Some(Cmp::Ge),
        _ => None,
    }
}

/// How many bytes are left from the next token's first one on; 0 where none is left.
pub fn left(at: Cursor<'_>) -> usize
    ensures left { result ≡ left_of (tokens at.entry) }
    ensures within { next_among (Limit ∷ []) (tokens at.entry) ≡ false }
{
    match next_token(at) {
        None => 0,
        Some(next) => next.left,
    }
}

/// Reads a keyword, in any case of its letters.
pub fn keyword<'a>(at: Cursor<'a>, small: &[u8]) -> Result<Cursor<'a>, ReadError>
    ensures { ReadsAs (λ r. (tt, tokens r)) result (one (a_keyword small.now) (tokens at.entry)) }
{
    match next_token(at) {
        None => Err(ReadError::Fault(0)),
        Some(next) => match next.token {
            Token::Word(word) if is_keyword(word, small) => Ok(next.rest),
            _ => Err(ReadError::Fault(next.left)),
        },
    }
}

/// Reads this very word.
pub fn exactly<'a>(at: Cursor<'a>, text: &[u8]) -> Result<Cursor<'a>, ReadError>
    ensures { ReadsAs (λ r. (tt, tokens r)) result (one (an_exact text.now) (tokens at.entry)) }
{
    match next_token(at) {
        None => Err(ReadError::Fault(0)),
        Some(next) => match next.token {
            Token::Word(word) if word == text => Ok(next.rest),
            _ => Err(ReadError::Fault(next.left)),
        },
    }
}

/// Reads a symbol.
pub fn symbol(at: Cursor<'_>, kind: SymbolKind) -> Result<Cursor<'_>, ReadError>
    ensures { ReadsAs (λ r. (tt, tokens r)) result (one (a_symbol kind) (tokens at.entry)) }
{
    match next_token(at) {
        None => Err(ReadError::Fault(0)),
        Some(next) => match next.token {
            Token::Symbol(found) if is_same(kind, found) => Ok(next.rest),
            _ => Err(ReadError::Fault(next.left)),
        },
    }
}

/// Reads a word.
pub fn word(at: Cursor<'_>) -> Result<(&[u8], Cursor<'_>), ReadError>
    ensures { ReadsAs (λ x. (x.0.now, tokens x.1)) result (one a_word (tokens at.entry)) }
{
    match next_token(at) {
        None => Err(ReadError::Fault(0)),
        Some(next) => match next.token {
            Token::Word(word) => Ok((word, next.rest)),
            _ => Err(ReadError::Fault(next.left)),
        },
    }
}

/// Reads a word that may name a column in a filter.
pub fn column(at: Cursor<'_>) -> Result<(&[u8], Cursor<'_>), ReadError>
    ensures { ReadsAs (λ x. (x.0.now, tokens x.1)) result (one a_column (tokens at.entry)) }
{
    match next_token(at) {
        None => Err(ReadError::Fault(0)),
        Some(next) => match next.token {
            Token::Word(word) if !is_connective(word) => Ok((word, next.rest)),
            _ => Err(ReadError::Fault(next.left)),
        },
    }
}

/// Reads a number.
pub fn number(at: Cursor<'_>) -> Result<(u128, Cursor<'_>), ReadError>
    ensures { ReadsAs (λ x. (x.0, tokens x.1)) result (one a_number (tokens at.entry)) }
{
    match next_token(at) {
        None => Err(ReadError::Fault(0)),
        Some(next) => match next.token {
            Token::Number(number) => Ok((number, next.rest)),
            _ => Err(ReadError::Fault(next.left)),
        },
    }
}

/// Reads a number of this value.
pub fn this_number(at: Cursor<'_>, wanted: u128) -> Result<Cursor<'_>, ReadError>
    ensures { ReadsAs (λ r. (tt, tokens r)) result (one (this_one wanted) (tokens at.entry)) }
{
    match next_token(at) {
        None => Err(ReadError::Fault(0)),
        Some(next) => match next.token {
            Token::Number(number) if number == wanted => Ok(next.rest),
            _ => Err(ReadError::Fault(next.left)),
        },
    }
}

/// Reads what comes after FORMAT CSV.
pub fn data(at: Cursor<'_>) -> Result<(&[u8], Cursor<'_>), ReadError>
    ensures { ReadsAs (λ x. (x.0.now, tokens x.1)) result (one some_data (tokens at.entry)) }
{
    match next_token(at) {
        None => Err(ReadError::Fault(0)),
        Some(next) => match next.token {
            Token::Data(bytes) => Ok((bytes, next.rest)),
            _ => Err(ReadError::Fault(next.left)),
        },
    }
}

/// Reads a comparison.
pub fn comparison(at: Cursor<'_>) -> Result<(Cmp, Cursor<'_>), ReadError>
    ensures { ReadsAs (λ x. (x.0, tokens x.1)) result (one a_comparison (tokens at.entry)) }
{
    match next_token(at) {
        None => Err(ReadError::Fault(0)),
        Some(next) => match next.token {
            Token::Symbol(kind) => match comparison_in(kind) {
                Some(cmp) => Ok((cmp, next.rest)),
                None => Err(ReadError::Fault(next.left)),
            },
            _ => Err(ReadError::Fault(next.left)),
        },
    }
}

/// Reads a text.
pub fn text(alloc: Global, at: Cursor<'_>) -> Result<(Blob, Cursor<'_>), ReadError>
    ensures { ReadsAs (λ x. (x.0, tokens x.1)) result (one a_text (tokens at.entry)) }
{
    match next_token(at) {
        None => Err(ReadError::Fault(0)),
        Some(next) => match next.token {
            Token::Text(bytes) => match text_of(alloc, bytes)? {
                Some(text) => Ok((text, next.rest)),
                None => Err(ReadError::Fault(next.left)),
            },
            _ => Err(ReadError::Fault(next.left)),
        },
    }
}

/// Reads the end of a statement, and says how many bytes there are after it.
pub fn end(at: Cursor<'_>) -> Result<(usize, Cursor<'_>), ReadError>
    ensures { ReadsAs (λ x. (x.0, tokens x.1)) result (one an_end (tokens at.entry)) }
{
    match next_token(at) {
        None => Err(ReadError::Fault(0)),
        Some(next) => match next.token {
            Token::Semicolon => Ok((next.left.saturating_sub(1), next.rest)),
            _ => Err(ReadError::Fault(next.left)),
        },
    }
}

/// Reads a `;` of the script, for which the script's end doesn't stand, and says how many bytes there are after it.
pub fn semicolon(at: Cursor<'_>) -> Result<(usize, Cursor<'_>), ReadError>
    ensures { ReadsAs (λ x. (x.0, tokens x.1)) result (one a_semicolon (tokens at.entry)) }
{
    match next_token(at) {
        None => Err(ReadError::Fault(0)),
        Some(next) => match next.token {
            Token::Semicolon if next.left > 0 => Ok((next.left - 1, next.rest)),
            _ => Err(ReadError::Fault(next.left)),
        },
    }
}

/// Whether this keyword comes next.
pub fn is_keyword_next(at: Cursor<'_>, small: &[u8]) -> bool
    ensures { result ≡ next_among (Keyword small.now ∷ []) (tokens at.entry) }
{
    match next_token(at) {
        None => false,
        Some(next) => match next.token {
            Token::Word(word) => is_keyword(word, small),
            _ => false,
        },
    }
}

/// Whether this very word comes next.
pub fn is_word_next(at: Cursor<'_>, text: &[u8]) -> bool
    ensures { result ≡ next_among (Exactly text.now ∷ []) (tokens at.entry) }
{
    match next_token(at) {
        None => false,
        Some(next) => match next.token {
            Token::Word(word) => word == text,
            _ => false,
        },
    }
}

/// Whether this symbol comes next.
pub fn is_symbol_next(at: Cursor<'_>, kind: SymbolKind) -> bool
    ensures { result ≡ next_among (Sign kind ∷ []) (tokens at.entry) }
{
    match next_token(at) {
        None => false,
        Some(next) => match next.token {
            Token::Symbol(found) => is_same(kind, found),
            _ => false,
        },
    }
}

/// Whether a number comes next.
pub fn is_number_next(at: Cursor<'_>) -> bool
    ensures { result ≡ next_among (AnyNumber ∷ []) (tokens at.entry) }
{
    match next_token(at) {
        None => false,
        Some(next) => match next.token {
            Token::Number(_) => true,
            _ => false,
        },
    }
}

/// Whether the end of a statement comes next.
pub fn is_end_next(at: Cursor<'_>) -> bool
    ensures { result ≡ next_among (End ∷ []) (tokens at.entry) }
{
    match next_token(at) {
        None => false,
        Some(next) => match next.token {
            Token::Semicolon => true,
            _ => false,
        },
    }
}

/// Whether any word comes next.
pub fn is_some_word_next(at: Cursor<'_>) -> bool
    ensures { result ≡ next_among (AnyWord ∷ []) (tokens at.entry) }
{
    match next_token(at) {
        None => false,
        Some(next) => match next.token {
            Token::Word(_) => true,
            _ => false,
        },
    }
}

/// Whether a text comes next.
pub fn is_text_next(at: Cursor<'_>) -> bool
    ensures { result ≡ next_among (AnyText ∷ []) (tokens at.entry) }
{
    match next_token(at) {
        None => false,
        Some(next) => match next.token {
            Token::Text(bytes) => text_len(bytes).is_some(),
            _ => false,
        },
    }
}

/// What comes after this keyword, where it comes next.
pub fn next_keyword<'a>(at: Cursor<'a>, small: &[u8]) -> Option<Cursor<'a>>
    ensures { Skips (Keyword small.now) (tokens at.entry) result }
{
    match next_token(at) {
        None => None,
        Some(next) => match next.token {
            Token::Word(word) if is_keyword(word, small) => Some(next.rest),
            _ => None,
        },
    }
}

/// What comes after this symbol, where it comes next.
pub fn next_symbol(at: Cursor<'_>, kind: SymbolKind) -> Option<Cursor<'_>>
    ensures { Skips (Sign kind) (tokens at.entry) result }
{
    match next_token(at) {
        None => None,
        Some(next) => match next.token {
            Token::Symbol(found) if is_same(kind, found) => Some(next.rest),
            _ => None,
        },
    }
}
