//! Lists of the mutations of a copy: each has all up to one mutation, the oldest first.
ghost use Rattle.std.specs.Prelude.{◌≡◌, ◌≤◌, ◌∷◌, ◌++◌, [], Some, None, ◌<◌, cond, length, map, vec_len, vec_capacity, option_to_list, IfOk};
ghost use Rattle.std.specs.List.{prefix_len};
ghost use Rattle.std.specs.Option.{option_map};
ghost use Rattle.std.specs.Arc.{arc_value};
ghost use Rattle.rmt_model.specs.Lawful.{is_mutation as is_mutation_of};
ghost use Rattle.rmt_history.specs.Mutations.{AreOrdered, PlacesRise, is_below, is_settled, last_list as last_list_of};

use crate::number::is_pending;
use rmt_entries::Entry;
use rmt_list::List;
use rmt_names::PartName;
use rmt_row::Seen;
use std::alloc::{AllocError, Global};
use std::sync::Arc;

/// The mutations of the last list.
pub(crate) fn last_list(lists: &[Arc<List<Seen<Entry>>, Global>]) -> &[Seen<Entry>]
    ensures { result.now ≡ last_list_of (map arc_value lists.now) }
{
    let Some(list) = lists.last() else {
        return &[];
    };
    list.as_slice()
}

/// How many of the mutations are at places below `end`.
pub(crate) fn count_below(tokens: &[Seen<Entry>], end: usize) -> usize
    requires { PlacesRise tokens.now }
    ensures count { result ≡ prefix_len (is_below end) tokens.now }
    ensures bound { result ≤ length tokens.now }
{
    tokens.partition_point(|token| token.place() < end)
}

/// How many of the mutations come before those that are pending for the part.
pub(crate) fn count_settled(tokens: &[Seen<Entry>], name: &PartName) -> usize
    requires { AreOrdered name.now tokens.now }
    ensures count { result ≡ prefix_len (is_settled name.now) tokens.now }
    ensures bound { result ≤ length tokens.now }
{
    let mut low = 0;
    let mut high = tokens.len();
    'halves: while low < high {
        let middle = low + (high - low) / 2;
        if is_pending(name, tokens[middle].value()) {
            high = middle;
        } else {
            low = middle + 1;
        }
    }
    low
}

/// Returns copies of the tokens, with room for one more.
pub(crate) fn copied(alloc: Global, tokens: &[Seen<Entry>]) -> Result<Vec<Seen<Entry>>, AllocError>
    ensures { IfOk result (λ all. all.items ≡ tokens.now) }
{
    let mut all = Vec::with_capacity(alloc, tokens.len().saturating_add(1))?;
    'tokens: for token in tokens {
        let token = token.copy()?;
        all.push(token)?;
    }
    Ok(all)
}

/// Whether the entry is a mutation.
pub(crate) fn is_mutation(entry: &Entry) -> bool
    ensures { result ≡ is_mutation_of entry.now }
{
    match entry {
        Entry::Mutation { .. } => true,
        _ => false,
    }
}

/// The list of the last one's mutations and the next token, where that is of a mutation.
pub(crate) fn next_list(
    alloc: Global,
    lists: &[Arc<List<Seen<Entry>>, Global>],
    next: &Seen<Entry>,
) -> Result<Option<Arc<List<Seen<Entry>>, Global>>, AllocError>
    ensures { IfOk result (λ list. option_map arc_value list ≡
        cond (is_mutation_of next.now.value) (Some (last_list_of (map arc_value lists.now) ++ next.now ∷ [])) None) }
{
    if !is_mutation(next.value()) {
        return Ok(None);
    }
    let mut tokens = copied(alloc, last_list(lists))?;
    let token = next.copy()?;
    tokens.push(token)?;
    let list = Arc::new(alloc, List::new(tokens))?;
    Ok(Some(list))
}

/// Adds the list, where there is one and there is room for it.
pub(crate) fn push_list(
    lists: &mut Vec<Arc<List<Seen<Entry>>, Global>>,
    list: Option<Arc<List<Seen<Entry>>, Global>>,
)
    requires room { vec_len lists.old < vec_capacity lists.old }
    ensures { map arc_value lists.new.items ≡
        map arc_value lists.old.items ++ option_to_list (option_map arc_value list) }
{
    if let Some(list) = list {
        lists.push(list).unwrap();
    }
}
