ghost use Rattle.std.specs.Prelude.{◌≡◌, ◌<◌, ◌∷◌, ◌++◌, [], true, cond, length, map, slice_get, IfOk, OnOk, OnErr};
ghost use Rattle.std.specs.declared.option.Option.TheVariants.{Some};
ghost use Rattle.std.specs.Option.{option_map};
ghost use Rattle.std.specs.Arc.{arc_value};
ghost use Rattle.rmt_history.specs.Copies.{AreNumbered};
ghost use Rattle.rmt_history.specs.TableLogs.{GoOnWith, list_with, lists_with};

use crate::mutation_list::{is_mutation, next_list, push_list};
use rmt_entries::Entry;
use rmt_list::List;
use rmt_row::Seen;
use std::alloc::{AllocError, Global};
use std::marker::Model;
use std::sync::Arc;

/// A table's log: the tokens of all its entries, and for each mutation a list of those up to it, which the copies that
/// follow the log share. Contracts see the tokens, in the order of their places, and how many more there is room for.
#[derive(Drop)]
pub struct TableLog {
    tokens: Vec<Seen<Entry>>,
    /// For each mutation, the tokens of those up to it, the oldest first; none from that on for which no memory was left.
    mutations: Vec<Arc<List<Seen<Entry>>, Global>>,
    /// Whether no list is missing.
    is_whole: bool,
}

impl Model for TableLog {
    ghost use Rattle.std.specs.Prelude.{◌-◌, map, vec_len, vec_capacity};
    ghost use Rattle.std.specs.Arc.{arc_value};
    ghost use Rattle.rmt_history.specs.TableLogs.{LoggedTokens, IsTableLog};
    ghost use Rattle.std.specs.Coded.{codes};
    ghost use Rattle.rmt_values.specs.contracts.checked.Checked as filter;

    ghost Value = { LoggedTokens };

    ghost coded = { Prim.hlevel (codes, filter.the_row.coded) };

    ghost view = { λ l. record { tokens = l.tokens.items; room = vec_capacity l.tokens - vec_len l.tokens } };

    ghost invariant = { λ l. IsTableLog l.tokens.items (map arc_value l.mutations.items) l.is_whole };
}

/// Adds the list of the last one's mutations and the next token, where that is of a mutation. At an error no memory was left.
fn add_list(
    lists: &mut Vec<Arc<List<Seen<Entry>>, Global>>,
    next: &Seen<Entry>,
) -> Result<(), AllocError>
    ensures ok { OnOk result (map arc_value lists.new.items ≡ lists_with (map arc_value lists.old.items) next.now) }
    ensures err { OnErr result (map arc_value lists.new.items ≡ map arc_value lists.old.items) }
{
    let list = next_list(*lists.allocator(), lists, next)?;
    lists.reserve(1)?;
    push_list(lists, list);
    Ok(())
}

/// The same where no list is missing, as long as there is memory. It tells whether none is missing now.
fn share(
    lists: &mut Vec<Arc<List<Seen<Entry>>, Global>>,
    is_whole: bool,
    next: &Seen<Entry>,
) -> bool
    ensures lists { map arc_value lists.new.items ≡
        cond result (lists_with (map arc_value lists.old.items) next.now) (map arc_value lists.old.items) }
    ensures whole { result ≡ true → is_whole ≡ true }
{
    if !is_whole {
        return false;
    }
    match add_list(lists, next) {
        Ok(()) => true,
        Err(_) => false,
    }
}

impl TableLog {
    /// A log without entries.
    pub fn new(alloc: Global) -> TableLog
        ensures { result.tokens ≡ [] }
    {
        TableLog {
            tokens: Vec::new(alloc),
            mutations: Vec::new(alloc),
            is_whole: true,
        }
    }

    /// How many entries it has.
    pub fn len(&self) -> usize
        ensures { result ≡ length self.now.tokens }
    {
        self.tokens.len()
    }

    /// The tokens, the oldest first.
    pub fn as_slice(&self) -> &[Seen<Entry>]
        ensures { result.now ≡ self.now.tokens }
    {
        &self.tokens
    }

    /// The token at the place.
    pub(crate) fn token(&self, place: usize) -> &Seen<Entry>
        requires { place < length self.now.tokens }
        ensures token { slice_get self.now.tokens place ≡ Some result.now }
        ensures numbered { AreNumbered self.now.tokens }
    {
        &self.tokens[place]
    }

    /// The list of the mutations up to the next token, where that is of one: the log's, or a new one where the log has none.
    /// Those before it have these lists. At an error no memory was left.
    pub(crate) fn list(
        &self,
        lists: &[Arc<List<Seen<Entry>>, Global>],
        next: &Seen<Entry>,
    ) -> Result<Option<Arc<List<Seen<Entry>>, Global>>, AllocError>
        requires { GoOnWith self.now.tokens (map arc_value lists.now) next.now }
        ensures { IfOk result (λ list. option_map arc_value list ≡ list_with (map arc_value lists.now) next.now) }
    {
        if !is_mutation(next.value()) {
            return Ok(None);
        }
        let count = lists.len();
        if count >= self.mutations.len() {
            let own = next_list(*self.tokens.allocator(), lists, next)?;
            return Ok(own);
        }
        let list = Arc::try_clone(&self.mutations[count])?;
        Ok(Some(list))
    }

    /// Makes room for one more token. At an error no memory was left.
    pub fn reserve(&mut self) -> Result<(), AllocError>
        ensures tokens { self.new.tokens ≡ self.old.tokens }
        ensures ok { OnOk result (0 < self.new.room) }
    {
        self.tokens.reserve(1)?;
        Ok(())
    }

    /// Adds the token of the next entry. It takes memory for the list of a mutation alone, and goes on where none is left.
    pub fn push(&mut self, next: Seen<Entry>)
        requires place { next.place ≡ length self.old.tokens }
        requires room { 0 < self.old.room }
        ensures { self.new.tokens ≡ self.old.tokens ++ next ∷ [] }
    {
        self.is_whole = share(&mut self.mutations, self.is_whole, &next);
        self.tokens.push_reserved(next);
    }
}
