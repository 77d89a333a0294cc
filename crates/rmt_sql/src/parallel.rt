//! LANES, and statements at a replica.
ghost use Rattle.std.specs.Prelude.{◌≡◌, [], ◌∷◌, map, codes};
ghost use Rattle.rmt_sql_tokens.specs.declared.symbol_kind.SymbolKind.TheVariants.{At};
ghost use Rattle.rmt_sql_tokens.specs.Classes.{Sign, next_among};
ghost use Rattle.rmt_sql_tokens.specs.Lexing.{tokens};
ghost use Rattle.rmt_sql_tokens.specs.Exact.{ReadsAs, maybe, many, always, item};
ghost use Rattle.rmt_sql_acts.specs.Phrases.{word as word_class};
ghost use Rattle.rmt_sql_acts.specs.Acts.{row_act as row_act_rule, row_act_firsts, act as act_rule};
ghost use Rattle.rmt_sql.specs.Grammar.{replica as replica_rule, lane_statement as statement_rule, lane_firsts, lane as lane_rule, may_follow, some_lanes as some_lanes_rule, lanes as lanes_rule, at_replica as at_rule};

use rmt_list::List;
use rmt_sql_acts::{any_act, is_row_act_next, name, row_act};
use rmt_sql_tokens::{
    Cursor, ReadError, SymbolKind, end, is_keyword_next, is_symbol_next, keyword, symbol,
};
use rmt_statements::{Sent, Statement};
use rmt_values::Name;
use std::alloc::Global;

/// The most lanes.
const MOST_LANES: usize = 8;

/// [ @ replica ]
#[tactic(auto, unfolding(crate::specs::Grammar::replica))]
fn some_replica(alloc: Global, at: Cursor<'_>) -> Result<(Option<Name>, Cursor<'_>), ReadError>
    ensures { ReadsAs (λ x. (x.0, tokens x.1)) result ((maybe (Sign At ∷ []) replica_rule).read (tokens at.entry)) }
{
    if !is_symbol_next(at, SymbolKind::At) {
        return Ok((None, at));
    }
    let at = symbol(at, SymbolKind::At)?;
    let (name, at) = name(alloc, at)?;
    Ok((Some(name), at))
}

/// [ @ replica ] and what is done there.
#[tactic(auto, unfolding(crate::specs::Grammar::at_replica))]
pub(crate) fn at_replica(
    alloc: Global,
    at: Cursor<'_>,
) -> Result<(Statement, usize, Cursor<'_>), ReadError>
    ensures { ReadsAs (λ x. ((x.0, x.1), tokens x.2)) result ((at_rule).read (tokens at.entry)) }
{
    let (replica, at) = some_replica(alloc, at)?;
    let (act, left, at) = any_act(alloc, at)?;
    Ok((Statement::At(Sent { replica, act }), left, at))
}

/// A statement of a lane, and its end.
#[tactic(auto, unfolding(crate::specs::Grammar::lane_statement))]
fn lane_statement(alloc: Global, at: Cursor<'_>) -> Result<(Sent, Cursor<'_>), ReadError>
    ensures { ReadsAs (λ x. (x.0, tokens x.1)) result ((statement_rule).read (tokens at.entry)) }
{
    let (replica, at) = some_replica(alloc, at)?;
    let (act, _, at) = row_act(alloc, false, at)?;
    Ok((Sent { replica, act }, at))
}

/// Whether a statement of a lane begins here.
fn is_statement_next(at: Cursor<'_>) -> bool
    ensures { result ≡ next_among lane_firsts (tokens at.entry) }
{
    is_symbol_next(at, SymbolKind::At) || is_row_act_next(at)
}

/// One more of the statements.
fn item_statement<'a>(
    alloc: Global,
    all: &mut Vec<Sent>,
    at: Cursor<'a>,
) -> Result<Cursor<'a>, ReadError>
    ensures { ReadsAs (λ r. (all.new.items, tokens r)) result ((item statement_rule all.old.items).read (tokens at.entry)) }
{
    let (one, at) = lane_statement(alloc, at)?;
    all.push(one)?;
    Ok(at)
}

/// The statements of a lane.
fn more_statements<'a>(
    alloc: Global,
    all: &mut Vec<Sent>,
    at: Cursor<'a>,
) -> Result<Cursor<'a>, ReadError>
    ensures { ReadsAs (λ r. (all.new.items, tokens r)) result ((many always lane_firsts (item statement_rule) all.old.items).read (tokens at.entry)) }
{
    let mut rest = at;
    'statements: loop {
        if !is_statement_next(rest) {
            return Ok(rest);
        }
        rest = item_statement(alloc, all, rest)?;
    }
}

/// LANE ; { statement ; }
#[tactic(auto, unfolding(crate::specs::Grammar::lane))]
fn lane(alloc: Global, at: Cursor<'_>) -> Result<(List<Sent>, Cursor<'_>), ReadError>
    ensures { ReadsAs (λ x. (x.0, tokens x.1)) result ((lane_rule).read (tokens at.entry)) }
{
    let at = keyword(at, b"lane")?;
    let (_, at) = end(at)?;
    let mut all = Vec::new(alloc);
    let at = more_statements(alloc, &mut all, at)?;
    Ok((List::new(all), at))
}

/// One more of the lanes.
fn item_lane<'a>(
    alloc: Global,
    all: &mut Vec<List<Sent>>,
    at: Cursor<'a>,
) -> Result<Cursor<'a>, ReadError>
    ensures { ReadsAs (λ r. (all.new.items, tokens r)) result ((item lane_rule all.old.items).read (tokens at.entry)) }
{
    let (one, at) = lane(alloc, at)?;
    all.push(one)?;
    Ok(at)
}

/// Whether one more lane may follow these.
fn is_room(all: &[List<Sent>]) -> bool
    ensures { result ≡ may_follow all.now }
{
    all.len() < MOST_LANES
}

/// Further lanes, up to 8.
fn more_lanes<'a>(
    alloc: Global,
    all: &mut Vec<List<Sent>>,
    at: Cursor<'a>,
) -> Result<Cursor<'a>, ReadError>
    ensures { ReadsAs (λ r. (all.new.items, tokens r)) result ((many may_follow (word_class (codes "lane")) (item lane_rule) all.old.items).read (tokens at.entry)) }
{
    let mut rest = at;
    'lanes: loop {
        if !is_room(all) {
            return Ok(rest);
        }
        if !is_keyword_next(rest, b"lane") {
            return Ok(rest);
        }
        rest = item_lane(alloc, all, rest)?;
    }
}

/// lane { lane }, at most 8
#[tactic(auto, unfolding(crate::specs::Grammar::some_lanes))]
fn some_lanes(alloc: Global, at: Cursor<'_>) -> Result<(List<List<Sent>>, Cursor<'_>), ReadError>
    ensures { ReadsAs (λ x. (x.0, tokens x.1)) result ((some_lanes_rule).read (tokens at.entry)) }
{
    let mut all = Vec::new(alloc);
    let at = item_lane(alloc, &mut all, at)?;
    let at = more_lanes(alloc, &mut all, at)?;
    Ok((List::new(all), at))
}

/// LANES ; lanes END ;
#[tactic(auto, unfolding(crate::specs::Grammar::lanes))]
pub(crate) fn lanes(
    alloc: Global,
    at: Cursor<'_>,
) -> Result<(Statement, usize, Cursor<'_>), ReadError>
    ensures { ReadsAs (λ x. ((x.0, x.1), tokens x.2)) result ((lanes_rule).read (tokens at.entry)) }
{
    let at = keyword(at, b"lanes")?;
    let (_, at) = end(at)?;
    let (lanes, at) = some_lanes(alloc, at)?;
    let at = keyword(at, b"end")?;
    let (left, at) = end(at)?;
    Ok((Statement::Lanes { lanes }, left, at))
}
