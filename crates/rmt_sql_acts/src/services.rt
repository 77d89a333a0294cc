//! Statements at a replica that have neither rows nor commands.
ghost use Rattle.std.specs.Prelude.{◌≡◌};
ghost use Rattle.rmt_sql_tokens.specs.Lexing.{tokens};
ghost use Rattle.rmt_sql_tokens.specs.Exact.{ReadsAs};
ghost use Rattle.rmt_sql_acts.specs.Acts.{show_parts as show_rule, check_table as check_rule, wait_mutation as wait_rule, sync_replica as sync_rule, restart_replica as restart_rule, stop_fetches as stop_rule, start_fetches as start_rule, system as system_rule, service as service_rule};

use crate::alters::optimize;
use crate::parts::name;
use crate::selects::explain;
use rmt_sql_tokens::{Cursor, ReadError, end, is_keyword_next, keyword, number};
use rmt_statements::Act;
use std::alloc::Global;

/// SHOW PARTS FROM table ;
#[tactic(auto, unfolding(crate::specs::Acts::show_parts))]
fn show_parts(alloc: Global, at: Cursor<'_>) -> Result<(Act, usize, Cursor<'_>), ReadError>
    ensures { ReadsAs (λ x. ((x.0, x.1), tokens x.2)) result ((show_rule).read (tokens at.entry)) }
{
    let at = keyword(at, b"show")?;
    let at = keyword(at, b"parts")?;
    let at = keyword(at, b"from")?;
    let (table, at) = name(alloc, at)?;
    let (left, at) = end(at)?;
    Ok((Act::ShowParts { table }, left, at))
}

/// CHECK TABLE table ;
#[tactic(auto, unfolding(crate::specs::Acts::check_table))]
fn check_table(alloc: Global, at: Cursor<'_>) -> Result<(Act, usize, Cursor<'_>), ReadError>
    ensures { ReadsAs (λ x. ((x.0, x.1), tokens x.2)) result ((check_rule).read (tokens at.entry)) }
{
    let at = keyword(at, b"check")?;
    let at = keyword(at, b"table")?;
    let (table, at) = name(alloc, at)?;
    let (left, at) = end(at)?;
    Ok((Act::CheckTable { table }, left, at))
}

/// WAIT MUTATION table number ;
#[tactic(auto, unfolding(crate::specs::Acts::wait_mutation))]
fn wait_mutation(alloc: Global, at: Cursor<'_>) -> Result<(Act, usize, Cursor<'_>), ReadError>
    ensures { ReadsAs (λ x. ((x.0, x.1), tokens x.2)) result ((wait_rule).read (tokens at.entry)) }
{
    let at = keyword(at, b"wait")?;
    let at = keyword(at, b"mutation")?;
    let (table, at) = name(alloc, at)?;
    let (id, at) = number(at)?;
    let (left, at) = end(at)?;
    Ok((Act::WaitMutation { table, id }, left, at))
}

/// SYNC REPLICA table ;
#[tactic(auto, unfolding(crate::specs::Acts::sync_replica))]
fn sync_replica(alloc: Global, at: Cursor<'_>) -> Result<(Act, usize, Cursor<'_>), ReadError>
    ensures { ReadsAs (λ x. ((x.0, x.1), tokens x.2)) result ((sync_rule).read (tokens at.entry)) }
{
    let at = keyword(at, b"sync")?;
    let at = keyword(at, b"replica")?;
    let (table, at) = name(alloc, at)?;
    let (left, at) = end(at)?;
    Ok((Act::SyncReplica { table }, left, at))
}

/// RESTART REPLICA table ;
#[tactic(auto, unfolding(crate::specs::Acts::restart_replica))]
fn restart_replica(alloc: Global, at: Cursor<'_>) -> Result<(Act, usize, Cursor<'_>), ReadError>
    ensures { ReadsAs (λ x. ((x.0, x.1), tokens x.2)) result ((restart_rule).read (tokens at.entry)) }
{
    let at = keyword(at, b"restart")?;
    let at = keyword(at, b"replica")?;
    let (table, at) = name(alloc, at)?;
    let (left, at) = end(at)?;
    Ok((Act::RestartReplica { table }, left, at))
}

/// STOP FETCHES table ;
#[tactic(auto, unfolding(crate::specs::Acts::stop_fetches))]
fn stop_fetches(alloc: Global, at: Cursor<'_>) -> Result<(Act, usize, Cursor<'_>), ReadError>
    ensures { ReadsAs (λ x. ((x.0, x.1), tokens x.2)) result ((stop_rule).read (tokens at.entry)) }
{
    let at = keyword(at, b"stop")?;
    let at = keyword(at, b"fetches")?;
    let (table, at) = name(alloc, at)?;
    let (left, at) = end(at)?;
    Ok((Act::StopFetches { table }, left, at))
}

/// START FETCHES table ;
#[tactic(auto, unfolding(crate::specs::Acts::start_fetches))]
fn start_fetches(alloc: Global, at: Cursor<'_>) -> Result<(Act, usize, Cursor<'_>), ReadError>
    ensures { ReadsAs (λ x. ((x.0, x.1), tokens x.2)) result ((start_rule).read (tokens at.entry)) }
{
    let at = keyword(at, b"start")?;
    let at = keyword(at, b"fetches")?;
    let (table, at) = name(alloc, at)?;
    let (left, at) = end(at)?;
    Ok((Act::StartFetches { table }, left, at))
}

/// SYSTEM and what is done.
#[tactic(auto, unfolding(crate::specs::Acts::system, crate::specs::Acts::system_command))]
fn system(alloc: Global, at: Cursor<'_>) -> Result<(Act, usize, Cursor<'_>), ReadError>
    ensures { ReadsAs (λ x. ((x.0, x.1), tokens x.2)) result ((system_rule).read (tokens at.entry)) }
{
    let at = keyword(at, b"system")?;
    if is_keyword_next(at, b"sync") {
        return sync_replica(alloc, at);
    }
    if is_keyword_next(at, b"restart") {
        return restart_replica(alloc, at);
    }
    if is_keyword_next(at, b"stop") {
        return stop_fetches(alloc, at);
    }
    start_fetches(alloc, at)
}

/// What a statement does at a replica, apart from rows and commands.
#[tactic(auto, unfolding(crate::specs::Acts::service))]
pub(crate) fn service(alloc: Global, at: Cursor<'_>) -> Result<(Act, usize, Cursor<'_>), ReadError>
    ensures { ReadsAs (λ x. ((x.0, x.1), tokens x.2)) result ((service_rule).read (tokens at.entry)) }
{
    if is_keyword_next(at, b"explain") {
        return explain(alloc, at);
    }
    if is_keyword_next(at, b"optimize") {
        return optimize(alloc, at);
    }
    if is_keyword_next(at, b"show") {
        return show_parts(alloc, at);
    }
    if is_keyword_next(at, b"check") {
        return check_table(alloc, at);
    }
    if is_keyword_next(at, b"wait") {
        return wait_mutation(alloc, at);
    }
    system(alloc, at)
}
