//! INSERT.
ghost use Rattle.std.specs.Prelude.{◌≡◌, ℕ, List, [], ◌∷◌, codes};
ghost use Rattle.std.specs.declared.option.Option.{Option};
ghost use Rattle.rmt_sql_tokens.specs.declared.symbol_kind.SymbolKind.TheVariants.{Comma, Open};
ghost use Rattle.rmt_sql_tokens.specs.Classes.{Sign, next_among};
ghost use Rattle.rmt_sql_tokens.specs.Lexing.{tokens};
ghost use Rattle.rmt_sql_tokens.specs.Exact.{ReadsAs, maybe, many, item, always, longest};
ghost use Rattle.rmt_sql_acts.specs.Phrases.{word};
ghost use Rattle.rmt_sql_acts.specs.Acts.{row as row_rule, further_row as further_rule, rows as rows_rule, row_firsts, insertion, values as values_rule, csv as csv_rule, insert_rows as insert_rows_rule, quorum_setting as quorum_rule, quorum_and_rows as quorum_and_rows_rule, into as into_rule, into_table as into_table_rule, insert as insert_rule};

use crate::list_item::listed;
use crate::parts::{LiteralItem, name, some_names};
use rmt_list::List;
use rmt_sql_tokens::{
    Cursor, ReadError, SymbolKind, data, end, exactly, is_keyword_next, is_symbol_next, keyword,
    number, symbol,
};
use rmt_statements::{Act, Insert, Offered};
use rmt_values::{Blob, Literal, Name};
use std::alloc::Global;

/// ( literal { , literal } )
#[tactic(auto, unfolding(crate::specs::Acts::row))]
fn row(alloc: Global, at: Cursor<'_>) -> Result<(List<Literal>, Cursor<'_>), ReadError>
    ensures { ReadsAs (λ x. (x.0, tokens x.1)) result ((row_rule).read (tokens at.entry)) }
{
    let at = symbol(at, SymbolKind::Open)?;
    let (all, at) = listed::<LiteralItem>(alloc, at)?;
    let at = symbol(at, SymbolKind::Close)?;
    Ok((all, at))
}

/// One more of the rows.
fn item_row<'a>(
    alloc: Global,
    all: &mut Vec<List<Literal>>,
    at: Cursor<'a>,
) -> Result<Cursor<'a>, ReadError>
    ensures { ReadsAs (λ r. (all.new.items, tokens r)) result ((item row_rule all.old.items).read (tokens at.entry)) }
{
    let (one, at) = row(alloc, at)?;
    all.push(one)?;
    Ok(at)
}

/// [ , ] row, after the rows that there are.
#[tactic(auto, unfolding(crate::specs::Acts::further_row))]
fn further_row<'a>(
    alloc: Global,
    all: &mut Vec<List<Literal>>,
    at: Cursor<'a>,
) -> Result<Cursor<'a>, ReadError>
    ensures { ReadsAs (λ r. (all.new.items, tokens r)) result ((further_rule all.old.items).read (tokens at.entry)) }
{
    if is_symbol_next(at, SymbolKind::Comma) {
        let at = symbol(at, SymbolKind::Comma)?;
        let at = item_row(alloc, all, at)?;
        return Ok(at);
    }
    let at = item_row(alloc, all, at)?;
    Ok(at)
}

/// Whether a further row begins.
fn is_row_next(at: Cursor<'_>) -> bool
    ensures { result ≡ next_among row_firsts (tokens at.entry) }
{
    is_symbol_next(at, SymbolKind::Comma) || is_symbol_next(at, SymbolKind::Open)
}

/// Further rows.
fn more_rows<'a>(
    alloc: Global,
    all: &mut Vec<List<Literal>>,
    at: Cursor<'a>,
) -> Result<Cursor<'a>, ReadError>
    ensures { ReadsAs (λ r. (all.new.items, tokens r)) result ((many always row_firsts further_rule all.old.items).read (tokens at.entry)) }
{
    let mut rest = at;
    'rows: loop {
        if !is_row_next(rest) {
            return Ok(rest);
        }
        rest = further_row(alloc, all, rest)?;
    }
}

/// row { [ , ] row }
#[tactic(auto, unfolding(crate::specs::Acts::rows))]
fn rows(alloc: Global, at: Cursor<'_>) -> Result<(List<List<Literal>>, Cursor<'_>), ReadError>
    ensures { ReadsAs (λ x. (x.0, tokens x.1)) result ((rows_rule).read (tokens at.entry)) }
{
    let mut all = Vec::new(alloc);
    let at = item_row(alloc, &mut all, at)?;
    let at = more_rows(alloc, &mut all, at)?;
    Ok((List::new(all), at))
}

/// VALUES rows ;
#[tactic(auto, unfolding(crate::specs::Acts::values))]
fn values(alloc: Global, at: Cursor<'_>) -> Result<(Offered, usize, Cursor<'_>), ReadError>
    ensures { (table : List ℕ) (columns : Option (List (List ℕ))) (quorum : Option ℕ) → ReadsAs (λ x. ((insertion table columns quorum x.0, x.1), tokens x.2)) result ((values_rule table columns quorum).read (tokens at.entry)) }
{
    let at = keyword(at, b"values")?;
    let (rows, at) = rows(alloc, at)?;
    let (left, at) = end(at)?;
    Ok((Offered::Values(rows), left, at))
}

/// FORMAT CSV data ;
#[tactic(auto, unfolding(crate::specs::Acts::csv))]
fn csv(alloc: Global, at: Cursor<'_>) -> Result<(Offered, usize, Cursor<'_>), ReadError>
    ensures { (table : List ℕ) (columns : Option (List (List ℕ))) (quorum : Option ℕ) → ReadsAs (λ x. ((insertion table columns quorum x.0, x.1), tokens x.2)) result ((csv_rule table columns quorum).read (tokens at.entry)) }
{
    let at = keyword(at, b"format")?;
    let at = keyword(at, b"csv")?;
    let (bytes, at) = data(at)?;
    let (left, at) = end(at)?;
    let bytes = Vec::from_slice(alloc, bytes)?;
    Ok((Offered::Csv(Blob::new(bytes)), left, at))
}

/// VALUES rows ; | FORMAT CSV data ;
#[tactic(auto, unfolding(crate::specs::Acts::insert_rows))]
fn insert_rows(alloc: Global, at: Cursor<'_>) -> Result<(Offered, usize, Cursor<'_>), ReadError>
    ensures { (table : List ℕ) (columns : Option (List (List ℕ))) (quorum : Option ℕ) → ReadsAs (λ x. ((insertion table columns quorum x.0, x.1), tokens x.2)) result ((insert_rows_rule table columns quorum).read (tokens at.entry)) }
{
    if is_keyword_next(at, b"values") {
        return values(alloc, at);
    }
    csv(alloc, at)
}

/// SETTINGS insert_quorum = number
#[tactic(auto, unfolding(crate::specs::Acts::quorum_setting))]
fn quorum_setting(at: Cursor<'_>) -> Result<(u128, Cursor<'_>), ReadError>
    ensures { ReadsAs (λ x. (x.0, tokens x.1)) result ((quorum_rule).read (tokens at.entry)) }
{
    let at = keyword(at, b"settings")?;
    let at = exactly(at, b"insert_quorum")?;
    let at = symbol(at, SymbolKind::Equal)?;
    let (number, at) = number(at)?;
    Ok((number, at))
}

/// [ SETTINGS insert_quorum = number ], where it may come, and the rows.
fn quorum_and_rows(
    alloc: Global,
    may_set: bool,
    at: Cursor<'_>,
) -> Result<(Option<u128>, Offered, usize, Cursor<'_>), ReadError>
    ensures { (table : List ℕ) (columns : Option (List (List ℕ))) → ReadsAs (λ x. ((insertion table columns x.0 x.1, x.2), tokens x.3)) result ((quorum_and_rows_rule may_set table columns).read (tokens at.entry)) }
{
    if may_set && is_keyword_next(at, b"settings") {
        let (quorum, at) = quorum_setting(at)?;
        let (rows, left, at) = insert_rows(alloc, at)?;
        return Ok((Some(quorum), rows, left, at));
    }
    let (rows, left, at) = insert_rows(alloc, at)?;
    Ok((None, rows, left, at))
}

/// table [ ( names ) ] and the rows.
#[tactic(auto, unfolding(crate::specs::Acts::into))]
fn into(alloc: Global, may_set: bool, at: Cursor<'_>) -> Result<(Act, usize, Cursor<'_>), ReadError>
    ensures { ReadsAs (λ x. ((x.0, x.1), tokens x.2)) result ((into_rule may_set).read (tokens at.entry)) }
{
    let (table, at) = name(alloc, at)?;
    let (columns, at) = some_names(alloc, at)?;
    let (quorum, rows, left, at) = quorum_and_rows(alloc, may_set, at)?;
    let insert = Insert {
        table,
        columns,
        quorum,
        rows,
    };
    Ok((Act::Insert(insert), left, at))
}

/// TABLE table and so on.
#[tactic(auto, unfolding(crate::specs::Acts::into_table))]
fn into_table(
    alloc: Global,
    may_set: bool,
    at: Cursor<'_>,
) -> Result<(Act, usize, Cursor<'_>), ReadError>
    ensures { ReadsAs (λ x. ((x.0, x.1), tokens x.2)) result ((into_table_rule may_set).read (tokens at.entry)) }
{
    let at = keyword(at, b"table")?;
    let (act, left, at) = into(alloc, may_set, at)?;
    Ok((act, left, at))
}

/// [ TABLE ] table and so on: of two readings the one that goes further.
fn into_either(
    alloc: Global,
    may_set: bool,
    at: Cursor<'_>,
) -> Result<(Act, usize, Cursor<'_>), ReadError>
    ensures { ReadsAs (λ x. ((x.0, x.1), tokens x.2)) result ((longest (into_table_rule may_set) (into_rule may_set)).read (tokens at.entry)) }
{
    if !is_keyword_next(at, b"table") {
        return into(alloc, may_set, at);
    }
    match into_table(alloc, may_set, at) {
        Ok(found) => Ok(found),
        Err(ReadError::Memory) => Err(ReadError::Memory),
        Err(ReadError::Fault(left)) => match into(alloc, may_set, at) {
            Ok(found) => Ok(found),
            Err(ReadError::Memory) => Err(ReadError::Memory),
            Err(ReadError::Fault(other)) => Err(ReadError::Fault(left.min(other))),
        },
    }
}

/// INSERT INTO [ TABLE ] table and so on.
#[tactic(auto, unfolding(crate::specs::Acts::insert))]
pub(crate) fn insert(
    alloc: Global,
    may_set: bool,
    at: Cursor<'_>,
) -> Result<(Act, usize, Cursor<'_>), ReadError>
    ensures { ReadsAs (λ x. ((x.0, x.1), tokens x.2)) result ((insert_rule may_set).read (tokens at.entry)) }
{
    let at = keyword(at, b"insert")?;
    let at = keyword(at, b"into")?;
    let (act, left, at) = into_either(alloc, may_set, at)?;
    Ok((act, left, at))
}
