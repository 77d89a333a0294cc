//! What a replica executes. A reader gives the act, how many bytes come after its end, and the place there; its
//! error is the place of the first token that can't follow, or out of memory.
ghost use Rattle.std.specs.Prelude.{◌≡◌};
ghost use Rattle.rmt_sql_tokens.specs.Classes.{next_among};
ghost use Rattle.rmt_sql_tokens.specs.Lexing.{tokens};
ghost use Rattle.rmt_sql_tokens.specs.Exact.{ReadsAs};
ghost use Rattle.rmt_sql_acts.specs.Acts.{row_act as row_act_rule, row_act_firsts, act as act_rule};

use crate::alters::alter;
use crate::inserts::insert;
use crate::selects::select;
use crate::services::service;
use rmt_sql_tokens::{Cursor, ReadError, is_keyword_next};
use rmt_statements::Act;
use std::alloc::Global;

/// Reads an INSERT, a SELECT or an ALTER, of which the first two have SETTINGS where they may.
#[tactic(auto, unfolding(crate::specs::Acts::row_act))]
pub fn row_act(
    alloc: Global,
    may_set: bool,
    at: Cursor<'_>,
) -> Result<(Act, usize, Cursor<'_>), ReadError>
    ensures { ReadsAs (λ x. ((x.0, x.1), tokens x.2)) result ((row_act_rule may_set).read (tokens at.entry)) }
{
    if is_keyword_next(at, b"insert") {
        return insert(alloc, may_set, at);
    }
    if is_keyword_next(at, b"select") {
        return select(alloc, may_set, at);
    }
    alter(alloc, at)
}

/// Whether an INSERT, a SELECT or an ALTER begins here.
pub fn is_row_act_next(at: Cursor<'_>) -> bool
    ensures { result ≡ next_among row_act_firsts (tokens at.entry) }
{
    is_keyword_next(at, b"insert")
        || is_keyword_next(at, b"select")
        || is_keyword_next(at, b"alter")
}

/// Reads what a statement asks of a replica.
#[tactic(auto, unfolding(crate::specs::Acts::act))]
pub fn any_act(alloc: Global, at: Cursor<'_>) -> Result<(Act, usize, Cursor<'_>), ReadError>
    ensures { ReadsAs (λ x. ((x.0, x.1), tokens x.2)) result ((act_rule).read (tokens at.entry)) }
{
    if is_row_act_next(at) {
        return row_act(alloc, true, at);
    }
    service(alloc, at)
}
