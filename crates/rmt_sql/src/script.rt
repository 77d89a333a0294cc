ghost use Rattle.std.specs.Prelude.{◌≡◌, ◌≤◌, ◌==◌, ◌&&◌, not, length, IfOk};
ghost use Rattle.std.specs.List.{prefix_len};
ghost use Rattle.rmt_sql_tokens.specs.Lexing.{tokens};
ghost use Rattle.rmt_sql.specs.Views.{PassesEmpty};
ghost use Rattle.rmt_sql.specs.Script.{passed, empty_next, after_end, ReadsAt, ReadsLimited, HoldsLanes, Advances};

use crate::parsed::Parsed;
use crate::statements::statement;
use rmt_sql_tokens::{Context, Cursor, ReadError, Token, is_end_next, left, next_token};
use std::alloc::{AllocError, Global};

/// What comes after a `;` of the script, where one comes next.
fn next_empty(at: Cursor<'_>) -> Option<Cursor<'_>>
    ensures { PassesEmpty (tokens at.entry) result }
{
    match next_token(at) {
        None => None,
        Some(next) => match next.token {
            Token::Semicolon if next.left > 0 => Some(next.rest),
            _ => None,
        },
    }
}

/// The place after empty statements.
fn after_empty(at: Cursor<'_>) -> Cursor<'_>
    ensures { tokens result ≡ passed (tokens at.entry) }
{
    let mut rest = at;
    'empty: loop {
        let Some(after) = next_empty(rest) else {
            return rest;
        };
        rest = after;
    }
}

/// Whether nothing but white space and comments comes before the first statement.
fn is_first(at: usize, here: Cursor<'_>) -> bool
    ensures { result ≡ (at == 0) && not (empty_next (tokens here.entry)) }
{
    if at != 0 {
        return false;
    }
    match next_empty(here) {
        None => true,
        Some(_) => false,
    }
}

/// How many bytes at the start are not `;`.
fn piece_len(bytes: &[u8]) -> usize
    ensures len { result ≡ prefix_len (λ b. not (b == 59)) bytes.now }
    ensures bound { result ≤ length bytes.now }
{
    bytes.iter().take_while(|byte| **byte != b';').count()
}

/// The place after the first `;` from a place on, or the script's end.
fn end_after(script: &[u8], at: usize) -> usize
    requires { at ≤ length script.now }
    ensures { result ≡ after_end script.now at }
{
    let (_, rest) = script.split_at(at);
    (at + piece_len(rest)).saturating_add(1).min(script.len())
}

/// Reads what comes next in a script, from the place `at` on. White space, comments and empty statements are passed
/// over. REPLICAS is read as a statement only at the script's start.
pub fn next_statement(alloc: Global, script: &[u8], at: usize) -> Result<Parsed, AllocError>
    requires { at ≤ length script.now }
    ensures reads { IfOk result (ReadsAt script.now at) }
    ensures advances { IfOk result (Advances script.now at) }
    ensures limits { IfOk result ReadsLimited }
    ensures lanes { IfOk result (HoldsLanes at) }
{
    let (_, ahead) = script.split_at(at);
    let here = Cursor {
        bytes: ahead,
        context: Context::Plain,
    };
    let first = is_first(at, here);
    let place = after_empty(here);
    if is_end_next(place) {
        return Ok(Parsed::End);
    }
    let start = script.len().saturating_sub(left(place));
    match statement(alloc, first, place) {
        Ok((statement, left, _)) => {
            let end = script.len().saturating_sub(left);
            Ok(Parsed::Statement {
                statement,
                start,
                end,
            })
        }
        Err(ReadError::Fault(left)) => {
            let offset = script.len().saturating_sub(left);
            let end = end_after(script, offset);
            Ok(Parsed::Syntax { offset, end })
        }
        Err(ReadError::Memory) => Err(AllocError),
    }
}
