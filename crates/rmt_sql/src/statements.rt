//! Whole statements.
ghost use Rattle.std.specs.Prelude.{◌≡◌, true};
ghost use Rattle.rmt_sql_tokens.specs.Lexing.{tokens};
ghost use Rattle.rmt_sql_tokens.specs.Exact.{ReadsAs, token};
ghost use Rattle.rmt_sql.specs.Grammar.{count_of as count_in_range, a_count, replicas as replicas_rule, kill as kill_rule, restart as restart_rule, run as run_rule, later_statement as later_rule, statement as statement_rule};

use crate::creates::create;
use crate::parallel::{at_replica, lanes};
use rmt_sql_acts::name;
use rmt_sql_tokens::{
    Cursor, ReadError, Token, end, is_keyword_next, keyword, next_token, number, semicolon,
};
use rmt_statements::Statement;
use std::alloc::Global;

/// A number of replicas: 1 to 8.
fn count_of(number: u128) -> Option<u8>
    ensures { result ≡ count_in_range number }
{
    if number >= 1 && number <= 8 {
        Some(number as u8)
    } else {
        None
    }
}

/// A number of replicas.
fn count(at: Cursor<'_>) -> Result<(u8, Cursor<'_>), ReadError>
    ensures { ReadsAs (λ x. (x.0, tokens x.1)) result ((token a_count).read (tokens at.entry)) }
{
    match next_token(at) {
        None => Err(ReadError::Fault(0)),
        Some(next) => match next.token {
            Token::Number(number) => match count_of(number) {
                Some(count) => Ok((count, next.rest)),
                None => Err(ReadError::Fault(next.left)),
            },
            _ => Err(ReadError::Fault(next.left)),
        },
    }
}

/// REPLICAS number ; of which the `;` is owed even where the script ends.
#[tactic(auto, unfolding(crate::specs::Grammar::replicas))]
fn replicas(at: Cursor<'_>) -> Result<(Statement, usize, Cursor<'_>), ReadError>
    ensures { ReadsAs (λ x. ((x.0, x.1), tokens x.2)) result ((replicas_rule).read (tokens at.entry)) }
{
    let at = keyword(at, b"replicas")?;
    let (count, at) = count(at)?;
    let (left, at) = semicolon(at)?;
    Ok((Statement::Replicas { count }, left, at))
}

/// KILL replica ;
#[tactic(auto, unfolding(crate::specs::Grammar::kill))]
fn kill(alloc: Global, at: Cursor<'_>) -> Result<(Statement, usize, Cursor<'_>), ReadError>
    ensures { ReadsAs (λ x. ((x.0, x.1), tokens x.2)) result ((kill_rule).read (tokens at.entry)) }
{
    let at = keyword(at, b"kill")?;
    let (replica, at) = name(alloc, at)?;
    let (left, at) = end(at)?;
    Ok((Statement::Kill { replica }, left, at))
}

/// RESTART replica ;
#[tactic(auto, unfolding(crate::specs::Grammar::restart))]
fn restart(alloc: Global, at: Cursor<'_>) -> Result<(Statement, usize, Cursor<'_>), ReadError>
    ensures { ReadsAs (λ x. ((x.0, x.1), tokens x.2)) result ((restart_rule).read (tokens at.entry)) }
{
    let at = keyword(at, b"restart")?;
    let (replica, at) = name(alloc, at)?;
    let (left, at) = end(at)?;
    Ok((Statement::Restart { replica }, left, at))
}

/// RUN table number SEED number ;
#[tactic(auto, unfolding(crate::specs::Grammar::run))]
fn run(alloc: Global, at: Cursor<'_>) -> Result<(Statement, usize, Cursor<'_>), ReadError>
    ensures { ReadsAs (λ x. ((x.0, x.1), tokens x.2)) result ((run_rule).read (tokens at.entry)) }
{
    let at = keyword(at, b"run")?;
    let (table, at) = name(alloc, at)?;
    let (turns, at) = number(at)?;
    let at = keyword(at, b"seed")?;
    let (seed, at) = number(at)?;
    let (left, at) = end(at)?;
    Ok((Statement::Run { table, turns, seed }, left, at))
}

/// A statement that may come anywhere.
#[tactic(auto, unfolding(crate::specs::Grammar::later_statement))]
fn later_statement(
    alloc: Global,
    at: Cursor<'_>,
) -> Result<(Statement, usize, Cursor<'_>), ReadError>
    ensures { ReadsAs (λ x. ((x.0, x.1), tokens x.2)) result ((later_rule).read (tokens at.entry)) }
{
    if is_keyword_next(at, b"create") {
        return create(alloc, at);
    }
    if is_keyword_next(at, b"kill") {
        return kill(alloc, at);
    }
    if is_keyword_next(at, b"restart") {
        return restart(alloc, at);
    }
    if is_keyword_next(at, b"run") {
        return run(alloc, at);
    }
    if is_keyword_next(at, b"lanes") {
        return lanes(alloc, at);
    }
    at_replica(alloc, at)
}

/// A whole statement with its end, or REPLICAS.
#[tactic(auto, unfolding(crate::specs::Grammar::statement))]
fn first_statement(
    alloc: Global,
    at: Cursor<'_>,
) -> Result<(Statement, usize, Cursor<'_>), ReadError>
    ensures { ReadsAs (λ x. ((x.0, x.1), tokens x.2)) result ((statement_rule true).read (tokens at.entry)) }
{
    if is_keyword_next(at, b"replicas") {
        return replicas(at);
    }
    later_statement(alloc, at)
}

/// A whole statement with its end; REPLICAS only as the first.
#[tactic(auto, unfolding(crate::specs::Grammar::statement))]
pub(crate) fn statement(
    alloc: Global,
    is_first: bool,
    at: Cursor<'_>,
) -> Result<(Statement, usize, Cursor<'_>), ReadError>
    ensures { ReadsAs (λ x. ((x.0, x.1), tokens x.2)) result ((statement_rule is_first).read (tokens at.entry)) }
{
    if is_first {
        return first_statement(alloc, at);
    }
    later_statement(alloc, at)
}
