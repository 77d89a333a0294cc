//! CREATE.
ghost use Rattle.std.specs.Prelude.{◌≡◌, [], ◌∷◌, Some, codes, IfOk};
ghost use Rattle.std.specs.Option.{option_map};
ghost use Rattle.std.specs.Str.{bytes_eq};
ghost use Rattle.rmt_sql_tokens.specs.Classes.{Exactly, AnyText};
ghost use Rattle.rmt_sql_tokens.specs.Lexing.{tokens};
ghost use Rattle.rmt_sql_tokens.specs.Exact.{ReadsAs, token, maybe, many, item};
ghost use Rattle.rmt_sql_acts.specs.Phrases.{some_if};
ghost use Rattle.rmt_sql.specs.Views.{called_rule, called_order};
ghost use Rattle.rmt_sql.specs.Grammar.{a_kind, kind_of_word, column as column_rule, columns as columns_rule, two_texts as two_texts_rule, engine_arguments as arguments_rule, division as division_rule, partition_rule as rule_rule, partition_by as partition_by_rule, partition_of as partition_named, order as order_rule, key_of as key_named, a_setting, setting_word, setting as setting_rule, settings as settings_rule, further_setting, may_set, with_setting as setting_set, settings_of as settings_or, create_settings as create_settings_rule, create_order as create_order_rule, create_engine as create_engine_rule, create as create_rule};
ghost use Rattle.rmt_sql_acts.specs.Phrases.{opening, comma, word as word_class};

use crate::order::Order;
use crate::partition_rule::PartitionRule;
use crate::setting_name::SettingName;
use crate::settings::Settings;
use rmt_list::List;
use rmt_sql_acts::{ListItem, is_exactly, listed, name, names_in_parentheses};
use rmt_sql_tokens::{
    Cursor, ReadError, SymbolKind, Token, end, exactly, is_keyword_next, is_symbol_next,
    is_text_next, keyword, next_symbol, next_token, number, symbol, text, word,
};
use rmt_statements::Statement;
use rmt_values::{Column, Kind, Name};
use std::alloc::{AllocError, Global};

/// The type of a name, exact in case.
fn kind_of(word: &[u8]) -> Option<Kind>
    ensures { result ≡ kind_of_word word.now }
{
    if is_exactly(word, b"UInt64") {
        return Some(Kind::UInt64);
    }
    if is_exactly(word, b"Int64") {
        return Some(Kind::Int64);
    }
    if is_exactly(word, b"String") {
        return Some(Kind::Text);
    }
    None
}

/// A type.
fn kind(at: Cursor<'_>) -> Result<(Kind, Cursor<'_>), ReadError>
    ensures { ReadsAs (λ x. (x.0, tokens x.1)) result ((token a_kind).read (tokens at.entry)) }
{
    match next_token(at) {
        None => Err(ReadError::Fault(0)),
        Some(next) => match next.token {
            Token::Word(word) => match kind_of(word) {
                Some(kind) => Ok((kind, next.rest)),
                None => Err(ReadError::Fault(next.left)),
            },
            _ => Err(ReadError::Fault(next.left)),
        },
    }
}

/// column type
#[tactic(auto, unfolding(crate::specs::Grammar::column))]
fn column(alloc: Global, at: Cursor<'_>) -> Result<(Column, Cursor<'_>), ReadError>
    ensures { ReadsAs (λ x. (x.0, tokens x.1)) result ((column_rule).read (tokens at.entry)) }
{
    let (name, at) = name(alloc, at)?;
    let (kind, at) = kind(at)?;
    Ok((Column { name, kind }, at))
}

/// A column in a list.
struct ColumnItem;

impl ListItem for ColumnItem {
    type Value = Column;

    ghost rule = { column_rule };

    fn read(alloc: Global, at: Cursor<'_>) -> Result<(Column, Cursor<'_>), ReadError> {
        column(alloc, at)
    }
}

/// column { , column }
#[tactic(auto, unfolding(crate::specs::Grammar::columns))]
fn columns(alloc: Global, at: Cursor<'_>) -> Result<(List<Column>, Cursor<'_>), ReadError>
    ensures { ReadsAs (λ x. (x.0, tokens x.1)) result ((columns_rule).read (tokens at.entry)) }
{
    listed::<ColumnItem>(alloc, at)
}

/// text , text
#[tactic(auto, unfolding(crate::specs::Grammar::two_texts))]
fn two_texts(alloc: Global, at: Cursor<'_>) -> Result<Cursor<'_>, ReadError>
    ensures { ReadsAs (λ r. (tt, tokens r)) result ((two_texts_rule).read (tokens at.entry)) }
{
    let (_, at) = text(alloc, at)?;
    let at = symbol(at, SymbolKind::Comma)?;
    let (_, at) = text(alloc, at)?;
    Ok(at)
}

/// ( [ text , text ] )
#[tactic(auto, unfolding(crate::specs::Grammar::engine_arguments))]
fn engine_arguments(alloc: Global, at: Cursor<'_>) -> Result<Cursor<'_>, ReadError>
    ensures { ReadsAs (λ r. (tt, tokens r)) result ((arguments_rule).read (tokens at.entry)) }
{
    let at = symbol(at, SymbolKind::Open)?;
    if is_text_next(at) {
        let at = two_texts(alloc, at)?;
        let at = symbol(at, SymbolKind::Close)?;
        return Ok(at);
    }
    let at = symbol(at, SymbolKind::Close)?;
    Ok(at)
}

/// ( column , number )
#[tactic(auto, unfolding(crate::specs::Grammar::division))]
fn division(alloc: Global, at: Cursor<'_>) -> Result<((Name, u128), Cursor<'_>), ReadError>
    ensures { ReadsAs (λ x. (Some x.0, tokens x.1)) result ((division_rule).read (tokens at.entry)) }
{
    let at = symbol(at, SymbolKind::Open)?;
    let (column, at) = name(alloc, at)?;
    let at = symbol(at, SymbolKind::Comma)?;
    let (divisor, at) = number(at)?;
    let at = symbol(at, SymbolKind::Close)?;
    Ok(((column, divisor), at))
}

/// tuple ( ) | column | intDiv ( column , number )
#[tactic(auto, unfolding(crate::specs::Grammar::partition_rule))]
fn partition_rule(alloc: Global, at: Cursor<'_>) -> Result<(PartitionRule, Cursor<'_>), ReadError>
    ensures { ReadsAs (λ x. (called_rule x.0, tokens x.1)) result ((rule_rule).read (tokens at.entry)) }
{
    let (word, at) = word(at)?;
    if is_exactly(word, b"tuple") {
        if is_symbol_next(at, SymbolKind::Open) {
            let at = symbol(at, SymbolKind::Open)?;
            let at = symbol(at, SymbolKind::Close)?;
            return Ok((PartitionRule::Tuple, at));
        }
        let column = Name::from_slice(alloc, word)?;
        return Ok((PartitionRule::Column(column), at));
    }
    if is_exactly(word, b"intDiv") && is_symbol_next(at, SymbolKind::Open) {
        let ((column, divisor), at) = division(alloc, at)?;
        return Ok((PartitionRule::Division(column, divisor), at));
    }
    let column = Name::from_slice(alloc, word)?;
    Ok((PartitionRule::Column(column), at))
}

/// PARTITION BY rule
#[tactic(auto, unfolding(crate::specs::Grammar::partition_by))]
fn partition_by(alloc: Global, at: Cursor<'_>) -> Result<(PartitionRule, Cursor<'_>), ReadError>
    ensures { ReadsAs (λ x. (called_rule x.0, tokens x.1)) result ((partition_by_rule).read (tokens at.entry)) }
{
    let at = keyword(at, b"partition")?;
    let at = keyword(at, b"by")?;
    let (rule, at) = partition_rule(alloc, at)?;
    Ok((rule, at))
}

/// \[ PARTITION BY rule \]
fn some_partition(
    alloc: Global,
    at: Cursor<'_>,
) -> Result<(Option<PartitionRule>, Cursor<'_>), ReadError>
    ensures { ReadsAs (λ x. (option_map called_rule x.0, tokens x.1)) result ((maybe (word_class (codes "partition")) partition_by_rule).read (tokens at.entry)) }
{
    if !is_keyword_next(at, b"partition") {
        return Ok((None, at));
    }
    let (rule, at) = partition_by(alloc, at)?;
    Ok((Some(rule), at))
}

/// A rule as a column and a divisor, which is 1 for the column itself.
fn partition_of(rule: Option<PartitionRule>) -> Option<(Name, u128)>
    ensures { result ≡ partition_named (option_map called_rule rule) }
{
    match rule {
        None => None,
        Some(PartitionRule::Tuple) => None,
        Some(PartitionRule::Column(column)) => Some((column, 1)),
        Some(PartitionRule::Division(column, divisor)) => Some((column, divisor)),
    }
}

/// tuple ( ) | column | ( names )
#[tactic(auto, unfolding(crate::specs::Grammar::order))]
fn order(alloc: Global, at: Cursor<'_>) -> Result<(Order, Cursor<'_>), ReadError>
    ensures { ReadsAs (λ x. (called_order x.0, tokens x.1)) result ((order_rule).read (tokens at.entry)) }
{
    if is_symbol_next(at, SymbolKind::Open) {
        let (all, at) = names_in_parentheses(alloc, at)?;
        return Ok((Order::Names(all), at));
    }
    let (word, at) = word(at)?;
    if is_exactly(word, b"tuple") && is_symbol_next(at, SymbolKind::Open) {
        let at = symbol(at, SymbolKind::Open)?;
        let at = symbol(at, SymbolKind::Close)?;
        return Ok((Order::Names(List::new(Vec::new(alloc))), at));
    }
    let column = Name::from_slice(alloc, word)?;
    Ok((Order::Column(column), at))
}

/// The columns of the sorting key.
fn key_of(alloc: Global, order: Order) -> Result<List<Name>, AllocError>
    ensures { IfOk result (λ key. key ≡ key_named (called_order order)) }
{
    match order {
        Order::Names(all) => Ok(all),
        Order::Column(column) => {
            let mut all = Vec::new(alloc);
            all.push(column)?;
            Ok(List::new(all))
        }
    }
}

/// The setting of a name, where it isn't set yet.
fn setting_of(settings: Settings, word: &[u8]) -> Option<SettingName>
    ensures { result ≡ setting_word settings word.now }
{
    if is_exactly(word, b"index_granularity") && settings.granularity.is_none() {
        return Some(SettingName::Granularity);
    }
    if is_exactly(word, b"replicated_deduplication_window") && settings.window.is_none() {
        return Some(SettingName::Window);
    }
    None
}

/// The settings with one more.
fn with_setting(name: SettingName, number: u128, settings: Settings) -> Settings
    ensures { result ≡ setting_set name number settings }
{
    match name {
        SettingName::Granularity => Settings {
            granularity: Some(number),
            window: settings.window,
        },
        SettingName::Window => Settings {
            granularity: settings.granularity,
            window: Some(number),
        },
    }
}

/// The name of a setting that isn't set yet.
fn unset_setting(settings: Settings, at: Cursor<'_>) -> Result<(SettingName, Cursor<'_>), ReadError>
    ensures { ReadsAs (λ x. (x.0, tokens x.1)) result ((token (a_setting settings)).read (tokens at.entry)) }
{
    match next_token(at) {
        None => Err(ReadError::Fault(0)),
        Some(next) => match next.token {
            Token::Word(word) => match setting_of(settings, word) {
                Some(which) => Ok((which, next.rest)),
                None => Err(ReadError::Fault(next.left)),
            },
            _ => Err(ReadError::Fault(next.left)),
        },
    }
}

/// setting = number
#[tactic(auto, unfolding(crate::specs::Grammar::setting))]
fn setting(settings: Settings, at: Cursor<'_>) -> Result<(Settings, Cursor<'_>), ReadError>
    ensures { ReadsAs (λ x. (x.0, tokens x.1)) result ((setting_rule settings).read (tokens at.entry)) }
{
    let (name, at) = unset_setting(settings, at)?;
    let at = symbol(at, SymbolKind::Equal)?;
    let (number, at) = number(at)?;
    Ok((with_setting(name, number, settings), at))
}

/// Whether there is a setting that isn't set yet.
fn may_go_on(settings: Settings) -> bool
    ensures { result ≡ may_set settings }
{
    settings.granularity.is_none() || settings.window.is_none()
}

/// { , setting = number }, each at most once
fn more_settings(first: Settings, at: Cursor<'_>) -> Result<(Settings, Cursor<'_>), ReadError>
    ensures { ReadsAs (λ x. (x.0, tokens x.1)) result ((many may_set comma further_setting first).read (tokens at.entry)) }
{
    let mut settings = first;
    let mut rest = at;
    'settings: loop {
        if !may_go_on(settings) {
            return Ok((settings, rest));
        }
        let Some(after) = next_symbol(rest, SymbolKind::Comma) else {
            return Ok((settings, rest));
        };
        let (set, later) = setting(settings, after)?;
        settings = set;
        rest = later;
    }
}

/// SETTINGS setting { , setting }
#[tactic(auto, unfolding(crate::specs::Grammar::settings))]
fn settings(at: Cursor<'_>) -> Result<(Settings, Cursor<'_>), ReadError>
    ensures { ReadsAs (λ x. (x.0, tokens x.1)) result ((settings_rule).read (tokens at.entry)) }
{
    let at = keyword(at, b"settings")?;
    let unset = Settings {
        granularity: None,
        window: None,
    };
    let (settings, at) = setting(unset, at)?;
    let (settings, at) = more_settings(settings, at)?;
    Ok((settings, at))
}

/// \[ SETTINGS setting { , setting } \]
fn some_settings(at: Cursor<'_>) -> Result<(Option<Settings>, Cursor<'_>), ReadError>
    ensures { ReadsAs (λ x. (x.0, tokens x.1)) result ((maybe (word_class (codes "settings")) settings_rule).read (tokens at.entry)) }
{
    if !is_keyword_next(at, b"settings") {
        return Ok((None, at));
    }
    let (settings, at) = settings(at)?;
    Ok((Some(settings), at))
}

/// The settings, of which none is set where there are none.
fn settings_of(settings: Option<Settings>) -> Settings
    ensures { result ≡ settings_or settings }
{
    match settings {
        Some(settings) => settings,
        None => Settings {
            granularity: None,
            window: None,
        },
    }
}

/// \[ SETTINGS .. ] and the end of a CREATE.
#[tactic(auto, unfolding(crate::specs::Grammar::create_settings))]
fn create_settings(
    table: Name,
    columns: List<Column>,
    partition: Option<(Name, u128)>,
    key: List<Name>,
    at: Cursor<'_>,
) -> Result<(Statement, usize, Cursor<'_>), ReadError>
    ensures { ReadsAs (λ x. ((x.0, x.1), tokens x.2)) result ((create_settings_rule table columns partition key).read (tokens at.entry)) }
{
    let (settings, at) = some_settings(at)?;
    let settings = settings_of(settings);
    let (left, at) = end(at)?;
    let create = Statement::Create {
        table,
        columns,
        partition,
        key,
        granularity: settings.granularity,
        window: settings.window,
    };
    Ok((create, left, at))
}

/// ORDER BY order and what comes after it.
#[tactic(auto, unfolding(crate::specs::Grammar::create_order))]
fn create_order(
    alloc: Global,
    table: Name,
    columns: List<Column>,
    partition: Option<(Name, u128)>,
    at: Cursor<'_>,
) -> Result<(Statement, usize, Cursor<'_>), ReadError>
    ensures { ReadsAs (λ x. ((x.0, x.1), tokens x.2)) result ((create_order_rule table columns partition).read (tokens at.entry)) }
{
    let at = keyword(at, b"order")?;
    let at = keyword(at, b"by")?;
    let (order, at) = order(alloc, at)?;
    let key = key_of(alloc, order)?;
    let (create, left, at) = create_settings(table, columns, partition, key, at)?;
    Ok((create, left, at))
}

/// \[ ( [ text , text ] ) ], and whether it is there.
fn some_arguments(alloc: Global, at: Cursor<'_>) -> Result<(bool, Cursor<'_>), ReadError>
    ensures { ReadsAs (λ x. (some_if x.0, tokens x.1)) result ((maybe opening arguments_rule).read (tokens at.entry)) }
{
    if !is_symbol_next(at, SymbolKind::Open) {
        return Ok((false, at));
    }
    let at = engine_arguments(alloc, at)?;
    Ok((true, at))
}

/// ENGINE = ReplicatedMergeTree and what comes after it.
#[tactic(auto, unfolding(crate::specs::Grammar::create_engine))]
fn create_engine(
    alloc: Global,
    table: Name,
    columns: List<Column>,
    at: Cursor<'_>,
) -> Result<(Statement, usize, Cursor<'_>), ReadError>
    ensures { ReadsAs (λ x. ((x.0, x.1), tokens x.2)) result ((create_engine_rule table columns).read (tokens at.entry)) }
{
    let at = keyword(at, b"engine")?;
    let at = symbol(at, SymbolKind::Equal)?;
    let at = exactly(at, b"ReplicatedMergeTree")?;
    let (_, at) = some_arguments(alloc, at)?;
    let (rule, at) = some_partition(alloc, at)?;
    let partition = partition_of(rule);
    let (create, left, at) = create_order(alloc, table, columns, partition, at)?;
    Ok((create, left, at))
}

/// CREATE TABLE table ( columns ) and what comes after it.
#[tactic(auto, unfolding(crate::specs::Grammar::create))]
pub(crate) fn create(
    alloc: Global,
    at: Cursor<'_>,
) -> Result<(Statement, usize, Cursor<'_>), ReadError>
    ensures { ReadsAs (λ x. ((x.0, x.1), tokens x.2)) result ((create_rule).read (tokens at.entry)) }
{
    let at = keyword(at, b"create")?;
    let at = keyword(at, b"table")?;
    let (table, at) = name(alloc, at)?;
    let at = symbol(at, SymbolKind::Open)?;
    let (columns, at) = columns(alloc, at)?;
    let at = symbol(at, SymbolKind::Close)?;
    let (create, left, at) = create_engine(alloc, table, columns, at)?;
    Ok((create, left, at))
}
