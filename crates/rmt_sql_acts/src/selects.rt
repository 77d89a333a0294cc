//! SELECT and EXPLAIN.
ghost use Rattle.std.specs.Prelude.{◌≡◌, ℕ, List, [], ◌∷◌, IfOk, codes, map};
ghost use Rattle.rmt_values.specs.declared.query.Query.{Query as QueryOf};
ghost use Rattle.rmt_statements.specs.declared.act.Act.TheVariants.{Select};
ghost use Rattle.std.specs.Option.{option_map};
ghost use Rattle.rmt_sql_tokens.specs.Classes.{Exactly};
ghost use Rattle.rmt_sql_tokens.specs.Lexing.{tokens};
ghost use Rattle.rmt_sql_tokens.specs.Exact.{ReadsAs, maybe, either, item};
ghost use Rattle.rmt_sql_acts.specs.Views.{called_item, select_end as select_end_rule, selection as selection_rule};
ghost use Rattle.rmt_sql_acts.specs.Phrases.{some_if};
ghost use Rattle.rmt_values.specs.declared.item.Item.TheVariants.{Count};
ghost use Rattle.rmt_sql_acts.specs.Phrases.{Call, word as word_class, more_listed, where_filter as where_rule};
ghost use Rattle.rmt_sql_acts.specs.Acts.{is_function as function_test, count_call as count_rule, aggregate as aggregate_of, aggregate_call as aggregate_rule, select_item as select_item_rule, some_items as items_rule, items_from as items_from_rule, star_from as star_rule, select_list_from as select_list_from_rule, group_by as group_rule, names_or, query_of, sequential as sequential_rule, synchronous as synchronous_rule, mode_of as mode_or, mode_and_end as mode_rule, sync_and_end as sync_rule, select as select_rule, indexes as indexes_rule, explain as explain_rule};

use crate::filters::where_filter;
use crate::parts::{name, names};
use rmt_list::List;
use rmt_sql_tokens::{
    Cursor, ReadError, SymbolKind, end, exactly, is_keyword, is_keyword_next, is_symbol_next,
    is_word_next, keyword, next_symbol, number, symbol, this_number, word,
};
use rmt_statements::{Act, Mode};
use rmt_values::{Filter, Item, Name, Query};
use std::alloc::Global;

/// Whether a word names a function.
fn is_function(word: &[u8]) -> bool
    ensures { result ≡ function_test word.now }
{
    (is_keyword(word, b"count") || is_keyword(word, b"sum"))
        || (is_keyword(word, b"min") || is_keyword(word, b"max"))
}

/// The function of a word, of a column.
fn aggregate(word: &[u8], column: Name) -> Item
    ensures value { result ≡ aggregate_of word.now column }
    ensures call { called_item result ≡ Call result }
{
    if is_keyword(word, b"sum") {
        return Item::Sum(column);
    }
    if is_keyword(word, b"min") {
        return Item::Min(column);
    }
    Item::Max(column)
}

/// ( [ * ] )
#[tactic(auto, unfolding(crate::specs::Acts::count_call))]
fn count_call(at: Cursor<'_>) -> Result<Cursor<'_>, ReadError>
    ensures { ReadsAs (λ r. (Count, tokens r)) result ((count_rule).read (tokens at.entry)) }
{
    let at = symbol(at, SymbolKind::Open)?;
    if is_symbol_next(at, SymbolKind::Star) {
        let at = symbol(at, SymbolKind::Star)?;
        let at = symbol(at, SymbolKind::Close)?;
        return Ok(at);
    }
    let at = symbol(at, SymbolKind::Close)?;
    Ok(at)
}

/// ( column )
#[tactic(auto, unfolding(crate::specs::Acts::aggregate_call))]
fn aggregate_call<'a>(
    alloc: Global,
    word: &[u8],
    at: Cursor<'a>,
) -> Result<(Item, Cursor<'a>), ReadError>
    ensures reads { ReadsAs (λ x. (x.0, tokens x.1)) result ((aggregate_rule word.now).read (tokens at.entry)) }
    ensures call { IfOk result (λ x. called_item x.0 ≡ Call x.0) }
{
    let at = symbol(at, SymbolKind::Open)?;
    let (column, at) = name(alloc, at)?;
    let at = symbol(at, SymbolKind::Close)?;
    Ok((aggregate(word, column), at))
}

/// column | count ( [ * ] ) | sum ( column ) | min ( column ) | max ( column )
#[tactic(auto, unfolding(crate::specs::Acts::select_item))]
fn select_item(alloc: Global, at: Cursor<'_>) -> Result<(Item, Cursor<'_>), ReadError>
    ensures { ReadsAs (λ x. (called_item x.0, tokens x.1)) result ((select_item_rule).read (tokens at.entry)) }
{
    let (word, at) = word(at)?;
    if is_function(word) && is_symbol_next(at, SymbolKind::Open) {
        if is_keyword(word, b"count") {
            let at = count_call(at)?;
            return Ok((Item::Count, at));
        }
        let (item, at) = aggregate_call(alloc, word, at)?;
        return Ok((item, at));
    }
    let column = Name::from_slice(alloc, word)?;
    Ok((Item::Column(column), at))
}

/// One more item of the select list.
fn item_selected<'a>(
    alloc: Global,
    all: &mut Vec<Item>,
    at: Cursor<'a>,
) -> Result<Cursor<'a>, ReadError>
    ensures { ReadsAs (λ r. (map called_item all.new.items, tokens r)) result ((item (select_item_rule) (map called_item all.old.items)).read (tokens at.entry)) }
{
    let (one, at) = select_item(alloc, at)?;
    all.push(one)?;
    Ok(at)
}

/// Further items of the select list, each after a comma.
fn more_select_items<'a>(
    alloc: Global,
    all: &mut Vec<Item>,
    at: Cursor<'a>,
) -> Result<Cursor<'a>, ReadError>
    ensures { ReadsAs (λ r. (map called_item all.new.items, tokens r)) result ((more_listed (select_item_rule) (map called_item all.old.items)).read (tokens at.entry)) }
{
    let mut rest = at;
    'items: loop {
        let Some(after) = next_symbol(rest, SymbolKind::Comma) else {
            return Ok(rest);
        };
        rest = item_selected(alloc, all, after)?;
    }
}

/// item { , item }
#[tactic(auto, unfolding(crate::specs::Acts::some_items))]
fn some_items(alloc: Global, at: Cursor<'_>) -> Result<(List<Item>, Cursor<'_>), ReadError>
    ensures { ReadsAs (λ x. (map called_item x.0, tokens x.1)) result ((items_rule).read (tokens at.entry)) }
{
    let mut all = Vec::new(alloc);
    let at = item_selected(alloc, &mut all, at)?;
    let at = more_select_items(alloc, &mut all, at)?;
    Ok((List::new(all), at))
}

/// The select list, and FROM; no items for `*`.
#[tactic(auto, unfolding(crate::specs::Acts::select_list_from, crate::specs::Acts::star_from, crate::specs::Acts::items_from))]
fn select_list_from(alloc: Global, at: Cursor<'_>) -> Result<(List<Item>, Cursor<'_>), ReadError>
    ensures { ReadsAs (λ x. (map called_item x.0, tokens x.1)) result ((select_list_from_rule).read (tokens at.entry)) }
{
    if is_symbol_next(at, SymbolKind::Star) {
        let at = symbol(at, SymbolKind::Star)?;
        let at = keyword(at, b"from")?;
        return Ok((List::new(Vec::new(alloc)), at));
    }
    let (all, at) = some_items(alloc, at)?;
    let at = keyword(at, b"from")?;
    Ok((all, at))
}

/// [ WHERE filter ]
fn some_filter(alloc: Global, at: Cursor<'_>) -> Result<(Option<Filter>, Cursor<'_>), ReadError>
    ensures { ReadsAs (λ x. (x.0, tokens x.1)) result ((maybe (word_class (codes "where")) where_rule).read (tokens at.entry)) }
{
    if !is_keyword_next(at, b"where") {
        return Ok((None, at));
    }
    let (filter, at) = where_filter(alloc, at)?;
    Ok((Some(filter), at))
}

/// GROUP BY names
#[tactic(auto, unfolding(crate::specs::Acts::group_by))]
fn group_by(alloc: Global, at: Cursor<'_>) -> Result<(List<Name>, Cursor<'_>), ReadError>
    ensures { ReadsAs (λ x. (x.0, tokens x.1)) result ((group_rule).read (tokens at.entry)) }
{
    let at = keyword(at, b"group")?;
    let at = keyword(at, b"by")?;
    let (all, at) = names(alloc, at)?;
    Ok((all, at))
}

/// [ GROUP BY names ]
fn some_group(alloc: Global, at: Cursor<'_>) -> Result<(Option<List<Name>>, Cursor<'_>), ReadError>
    ensures { ReadsAs (λ x. (x.0, tokens x.1)) result ((maybe (word_class (codes "group")) group_rule).read (tokens at.entry)) }
{
    if !is_keyword_next(at, b"group") {
        return Ok((None, at));
    }
    let (all, at) = group_by(alloc, at)?;
    Ok((Some(all), at))
}

/// The names of the groups, of which there are none without GROUP BY.
fn group_of(alloc: Global, group: Option<List<Name>>) -> List<Name>
    ensures { result ≡ names_or group }
{
    match group {
        Some(all) => all,
        None => List::new(Vec::new(alloc)),
    }
}

/// A query, which has no groups without GROUP BY.
fn query(
    alloc: Global,
    items: List<Item>,
    filter: Option<Filter>,
    group: Option<List<Name>>,
) -> Query
    ensures { result ≡ query_of (map called_item items) filter group }
{
    let group = group_of(alloc, group);
    Query {
        items,
        filter,
        group,
    }
}

/// SETTINGS select_sequential_consistency = number
#[tactic(auto, unfolding(crate::specs::Acts::sequential))]
fn sequential(at: Cursor<'_>) -> Result<(Mode, Cursor<'_>), ReadError>
    ensures { ReadsAs (λ x. (x.0, tokens x.1)) result ((sequential_rule).read (tokens at.entry)) }
{
    let at = keyword(at, b"settings")?;
    let at = exactly(at, b"select_sequential_consistency")?;
    let at = symbol(at, SymbolKind::Equal)?;
    let (number, at) = number(at)?;
    Ok((Mode::Sequential(number), at))
}

/// SYNC
#[tactic(auto, unfolding(crate::specs::Acts::synchronous))]
fn synchronous(at: Cursor<'_>) -> Result<(Mode, Cursor<'_>), ReadError>
    ensures { ReadsAs (λ x. (x.0, tokens x.1)) result ((synchronous_rule).read (tokens at.entry)) }
{
    let at = keyword(at, b"sync")?;
    Ok((Mode::Sync, at))
}

/// [ SYNC | SETTINGS .. ] ;
#[tactic(auto, unfolding(crate::specs::Acts::mode_and_end))]
fn mode_and_end(at: Cursor<'_>) -> Result<(Mode, usize, Cursor<'_>), ReadError>
    ensures { (table : List ℕ) (query : QueryOf) → ReadsAs (λ x. ((Select table query x.0, x.1), tokens x.2)) result ((mode_rule table query).read (tokens at.entry)) }
{
    if is_keyword_next(at, b"sync") {
        let (mode, at) = synchronous(at)?;
        let (left, at) = end(at)?;
        return Ok((mode, left, at));
    }
    if is_keyword_next(at, b"settings") {
        let (mode, at) = sequential(at)?;
        let (left, at) = end(at)?;
        return Ok((mode, left, at));
    }
    let (left, at) = end(at)?;
    Ok((Mode::Plain, left, at))
}

/// [ SYNC ] ;
#[tactic(auto, unfolding(crate::specs::Acts::sync_and_end))]
fn sync_and_end(at: Cursor<'_>) -> Result<(Mode, usize, Cursor<'_>), ReadError>
    ensures { (table : List ℕ) (query : QueryOf) → ReadsAs (λ x. ((Select table query x.0, x.1), tokens x.2)) result ((sync_rule table query).read (tokens at.entry)) }
{
    if is_keyword_next(at, b"sync") {
        let (mode, at) = synchronous(at)?;
        let (left, at) = end(at)?;
        return Ok((mode, left, at));
    }
    let (left, at) = end(at)?;
    Ok((Mode::Plain, left, at))
}

/// The mode of a SELECT and its end, with SETTINGS where they may come.
fn select_end(may_set: bool, at: Cursor<'_>) -> Result<(Mode, usize, Cursor<'_>), ReadError>
    ensures { (table : List ℕ) (query : QueryOf) → ReadsAs (λ x. ((Select table query x.0, x.1), tokens x.2)) result ((select_end_rule may_set table query).read (tokens at.entry)) }
{
    if may_set {
        return mode_and_end(at);
    }
    sync_and_end(at)
}

/// SELECT items FROM table [ WHERE filter ] [ GROUP BY names ]
#[tactic(auto, unfolding(crate::specs::Views::selection))]
fn selection(alloc: Global, at: Cursor<'_>) -> Result<(Name, Query, Cursor<'_>), ReadError>
    ensures { ReadsAs (λ x. ((x.0, x.1), tokens x.2)) result ((selection_rule).read (tokens at.entry)) }
{
    let at = keyword(at, b"select")?;
    let (items, at) = select_list_from(alloc, at)?;
    let (table, at) = name(alloc, at)?;
    let (filter, at) = some_filter(alloc, at)?;
    let (group, at) = some_group(alloc, at)?;
    Ok((table, query(alloc, items, filter, group), at))
}

/// A SELECT, with SETTINGS where they may come.
#[tactic(auto, using(crate::proofs::SelectReads::select_read))]
pub(crate) fn select(
    alloc: Global,
    may_set: bool,
    at: Cursor<'_>,
) -> Result<(Act, usize, Cursor<'_>), ReadError>
    ensures { ReadsAs (λ x. ((x.0, x.1), tokens x.2)) result ((select_rule may_set).read (tokens at.entry)) }
{
    let (table, query, at) = selection(alloc, at)?;
    let (mode, left, at) = select_end(may_set, at)?;
    Ok((Act::Select { table, query, mode }, left, at))
}

/// [ indexes = 1 ], and whether it is there.
#[tactic(auto, unfolding(crate::specs::Acts::indexes))]
fn some_indexes(at: Cursor<'_>) -> Result<(bool, Cursor<'_>), ReadError>
    ensures { ReadsAs (λ x. (some_if x.0, tokens x.1)) result ((maybe (Exactly (codes "indexes") ∷ []) indexes_rule).read (tokens at.entry)) }
{
    if !is_word_next(at, b"indexes") {
        return Ok((false, at));
    }
    let at = exactly(at, b"indexes")?;
    let at = symbol(at, SymbolKind::Equal)?;
    let at = this_number(at, 1)?;
    Ok((true, at))
}

/// EXPLAIN [ indexes = 1 ] SELECT .. ;
#[tactic(auto, using(crate::proofs::SelectReads::explain_read))]
pub(crate) fn explain(alloc: Global, at: Cursor<'_>) -> Result<(Act, usize, Cursor<'_>), ReadError>
    ensures { ReadsAs (λ x. ((x.0, x.1), tokens x.2)) result ((explain_rule).read (tokens at.entry)) }
{
    let at = keyword(at, b"explain")?;
    let (_, at) = some_indexes(at)?;
    let (table, query, at) = selection(alloc, at)?;
    let (left, at) = end(at)?;
    Ok((Act::Explain { table, query }, left, at))
}
