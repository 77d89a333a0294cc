ghost use Rattle.std.specs.Prelude.{◌≡◌, ◌∷◌, [], ◌++◌, None, cond, map, length, vec_len, vec_capacity, slice_get, IfOk, IfSome, OnOk, OnErr, MatchOption, IsTrue, ◌≤◌, ◌<◌, ◌^◌, ◌↔◌};
ghost use Rattle.std.specs.List.{All};
ghost use Rattle.std.specs.declared.option.Option.TheVariants.{Some};
ghost use Rattle.std.specs.Arc.{arc_value};
ghost use Rattle.rmt_model.specs.Live.{live as live_of, DroppedAfter};
ghost use Rattle.rmt_model.specs.Lawful.{Lawful, IsPrefix, entry_at, ver as ver_of, AreNeighbours};
ghost use Rattle.rmt_model.specs.Words.{Each};
ghost use Rattle.rmt_history.specs.Copies.{AreOfOneRow, HasRowOf, IsMadeBy, entries};
ghost use Rattle.rmt_history.specs.TableLogs.{HaveRowOf, KeepsRow, Follows};
ghost use Rattle.rmt_history.specs.Mutations.{AreTokensBelow, HasOrder, mutations_below, pending_below};
ghost use Rattle.rmt_model.specs.Choices.{last_pending as last_pending_of};

use crate::last_drop::{LastDrop, takes_after};
use crate::mutation_list::{copied, count_below, count_settled, last_list, next_list, push_list};
use crate::name_key::NameKey;
use crate::neighbours::stand_at;
use crate::number::{is_pending, number_in};
use crate::table_log::TableLog;
use crate::update::{bring_up, note};
use rmt_entries::Entry;
use rmt_list::List;
use rmt_names::{PartName, PartitionId};
use rmt_nameset::NameSet;
use rmt_row::{Seen, agree};
use rmt_values::Schema;
use std::alloc::{AllocError, Global};
use std::collections::BTreeMap;
use std::marker::Model;
use std::sync::Arc;

/// A copy of the prefix of a table's log: the tokens of the entries 0 up to its length. Contracts see it as the schema, the
/// entries, the newest first, and the cells that hold them. The entries are lawful.
#[derive(Drop)]
pub struct LogCopy {
    schema: Arc<Schema, Global>,
    seen: Vec<Seen<Entry>>,
    live: NameSet,
    makers: BTreeMap<NameKey, usize>,
    drops: BTreeMap<PartitionId, LastDrop>,
    /// For each mutation, the tokens of those up to it, the oldest first. Where the copy follows a log, they are the log's.
    mutations: Vec<Arc<List<Seen<Entry>>, Global>>,
}

impl Model for LogCopy {
    ghost use Rattle.std.specs.Prelude.{map};
    ghost use Rattle.std.specs.Arc.{arc_value};
    ghost use Rattle.rmt_history.specs.Copies.{History, entries, cells_of, IsCopy};
    ghost use Rattle.std.specs.Coded.{codes};
    ghost use Rattle.rmt_values.specs.contracts.checked.Checked as filter;

    ghost Value = { History };

    ghost coded = { Prim.hlevel (codes, filter.the_row.coded) };

    ghost view = { λ c. record { schema = arc_value c.schema; log = entries c.seen.items; cells = cells_of c.seen.items } };

    ghost invariant = { λ c. IsCopy (arc_value c.schema) c.seen.items c.live.names c.makers c.drops (map arc_value c.mutations.items) };
}

/// Makes room for one more entry. Nothing else changes.
fn room_for(
    seen: &mut Vec<Seen<Entry>>,
    live: &mut NameSet,
    mutations: &mut Vec<Arc<List<Seen<Entry>>, Global>>,
) -> Result<(), AllocError>
    ensures seen { seen.new.items ≡ seen.old.items }
    ensures live { live.new.names ≡ live.old.names }
    ensures mutations { mutations.new.items ≡ mutations.old.items }
    ensures seen_room { OnOk result (vec_len seen.new < vec_capacity seen.new) }
    ensures live_room { OnOk result (0 < live.new.room) }
    ensures mutations_room { OnOk result (vec_len mutations.new < vec_capacity mutations.new) }
{
    seen.reserve(1)?;
    live.reserve()?;
    mutations.reserve(1)?;
    Ok(())
}

impl LogCopy {
    /// A copy without entries.
    pub fn new(alloc: Global, schema: Arc<Schema, Global>) -> LogCopy
        ensures { result ≡ record { schema = arc_value schema; log = []; cells = [] } }
    {
        LogCopy {
            schema,
            seen: Vec::new(alloc),
            live: NameSet::new(alloc),
            makers: BTreeMap::new(alloc),
            drops: BTreeMap::new(alloc),
            mutations: Vec::new(alloc),
        }
    }

    /// How many entries it has.
    pub fn len(&self) -> usize
        ensures len { result ≡ length self.now.log }
        ensures small { result < 2 ^ 63 }
        ensures lawful { Lawful self.now.schema self.now.log }
    {
        self.seen.len()
    }

    /// The token of the entry at this place, counted from 0; none from the length on.
    pub fn entry(&self, i: usize) -> Option<&Seen<Entry>>
        ensures entry { MatchOption result (length self.now.log ≤ i) (λ token. entry_at self.now.log i ≡ Some token.now.value) }
        ensures place { IfSome result (λ token. token.now.place ≡ i) }
        ensures cell { IfSome result (λ token. slice_get self.now.cells i ≡ Some token.now.cell) }
    {
        if i < self.seen.len() {
            Some(&self.seen[i])
        } else {
            None
        }
    }

    /// Adds the next entry of the table's log, of which this copies a prefix, and shares the log's list of mutations.
    ///
    /// # Errors
    ///
    /// When memory runs out. The copy stays as it was.
    pub fn follow(&mut self, log: &TableLog) -> Result<(), AllocError>
        requires lawful { Lawful self.old.schema (entries log.now.tokens) }
        requires prefix { IsPrefix self.old.log (entries log.now.tokens) }
        requires longer { length self.old.log < length log.now.tokens }
        requires row { HaveRowOf self.old log.now.tokens }
        ensures ok { OnOk result (Follows self.old log.now.tokens self.new) }
        ensures of_row { OnOk result (KeepsRow self.old log.now.tokens self.new) }
        ensures err { OnErr result (self.new ≡ self.old) }
    {
        let place = self.seen.len();
        let next = log.token(place).copy()?;
        let list = log.list(&self.mutations, &next)?;
        room_for(&mut self.seen, &mut self.live, &mut self.mutations)?;
        note(&mut self.makers, &mut self.drops, next.value(), place)?;
        bring_up(&mut self.live, next.value());
        push_list(&mut self.mutations, list);
        self.seen.push(next).unwrap();
        Ok(())
    }

    /// Adds the next entry, where the longer log is lawful.
    ///
    /// # Errors
    ///
    /// When memory runs out. The copy stays as it was, and the token is gone.
    pub fn extend(&mut self, next: Seen<Entry>) -> Result<(), AllocError>
        requires place { next.place ≡ length self.old.log }
        requires lawful { Lawful self.old.schema (next.value ∷ self.old.log) }
        ensures ok { OnOk result (self.new ≡ record self.old { log = next.value ∷ self.old.log; cells = self.old.cells ++ next.cell ∷ [] }) }
        ensures err { OnErr result (self.new ≡ self.old) }
    {
        let list = next_list(*self.seen.allocator(), &self.mutations, &next)?;
        room_for(&mut self.seen, &mut self.live, &mut self.mutations)?;
        let place = self.seen.len();
        note(&mut self.makers, &mut self.drops, next.value(), place)?;
        bring_up(&mut self.live, next.value());
        push_list(&mut self.mutations, list);
        self.seen.push(next).unwrap();
        Ok(())
    }

    /// Where the token is of the copy's row, it is of the entry at its place, if the copy has that place. It takes no memory.
    pub fn meet_token(&self, token: &Seen<Entry>)
        requires row { HasRowOf self.now token.now }
        ensures { token.now.place < length self.now.log → entry_at self.now.log token.now.place ≡ Some token.now.value }
    {
        if let Some(own) = self.entry(token.place()) {
            agree(own, token);
        }
    }

    /// The same of all these tokens. It takes no memory.
    pub fn meet_tokens(&self, tokens: &[Seen<Entry>])
        requires row { Each (HasRowOf self.now) tokens.now }
        ensures { Each (λ t. t.place < length self.now.log → entry_at self.now.log t.place ≡ Some t.value) tokens.now }
    {
        'tokens: for token in tokens {
            self.meet_token(token);
        }
    }

    /// Of two copies of one row the shorter is a prefix of the longer. It takes no memory.
    pub fn meet(&self, other: &LogCopy)
        requires row { AreOfOneRow self.now other.now }
        ensures shorter { length self.now.log ≤ length other.now.log → IsPrefix self.now.log other.now.log }
        ensures longer { length other.now.log ≤ length self.now.log → IsPrefix other.now.log self.now.log }
    {
        let common = self.len().min(other.len());
        'places: for i in 0..common {
            agree(self.entry(i).unwrap(), other.entry(i).unwrap());
        }
    }

    /// The live names, in order of partition and number.
    pub fn live(&self) -> &[PartName]
        ensures { result.now ≡ live_of self.now.log }
    {
        self.live.as_slice()
    }

    /// The place of the entry that makes the name; none where no entry does.
    pub fn made_by(&self, name: &PartName) -> Option<usize>
        ensures { IsMadeBy self.now.log name.now result }
    {
        self.makers.get(&NameKey::of(name)).copied()
    }

    /// Whether a drop that comes after the place takes the name away.
    pub fn dropped_after(&self, i: usize, name: &PartName) -> bool
        ensures { IsTrue result ↔ DroppedAfter self.now.log i name.now }
    {
        let last = self.drops.get(&name.partition()).copied();
        takes_after(last, i, name)
    }

    /// The current version of a part: the greatest number that a mutation took in its partition and that isn't above
    /// its data's version; 0 where there is none.
    pub fn ver(&self, name: &PartName) -> u32
        ensures { result ≡ ver_of self.now.log name.now }
    {
        let all = last_list(&self.mutations);
        let settled = count_settled(all, name);
        if settled == 0 {
            return 0;
        }
        let last = settled - 1;
        let Some(number) = number_in(all[last].value(), name.partition()) else {
            return 0;
        };
        number
    }

    /// Whether the names are neighbours among the live ones, in their order; true of no names.
    pub fn neighbours(&self, names: &[PartName]) -> bool
        ensures { IsTrue result ↔ AreNeighbours self.now.log names.now }
    {
        let Some(first) = names.first() else {
            return true;
        };
        let Some(at) = self.live.covering(first) else {
            return false;
        };
        stand_at(self.live.as_slice(), at, names)
    }

    /// Returns copies of the tokens of the mutations at places below `upto` that are pending for the part, the oldest
    /// first. At an error no memory was left.
    pub fn pending(
        &self,
        alloc: Global,
        name: &PartName,
        upto: usize,
    ) -> Result<Vec<Seen<Entry>>, AllocError>
        ensures { IfOk result (λ all.
            AreTokensBelow self.now upto (pending_below self.now.log name.now upto) all.items) }
    {
        let all = last_list(&self.mutations);
        let below = all.split_at(count_below(all, upto)).0;
        let settled = count_settled(below, name);
        let pending = copied(alloc, below.split_at(settled).1)?;
        Ok(pending)
    }

    /// The last place below `upto` of a mutation that is pending for the part.
    pub fn last_pending(&self, name: &PartName, upto: usize) -> Option<usize>
        ensures { result ≡ last_pending_of self.now.log name.now upto }
    {
        let all = last_list(&self.mutations);
        let count = count_below(all, upto);
        if count == 0 {
            return None;
        }
        let newest = count - 1;
        let token = &all[newest];
        if !is_pending(name, token.value()) {
            return None;
        }
        Some(token.place())
    }

    /// The tokens of the mutations at places below `end`, the oldest first; none where there is no such mutation.
    pub fn mutations(&self, end: usize) -> Option<&Arc<List<Seen<Entry>>, Global>>
        ensures tokens { MatchOption result (mutations_below self.now.log end ≡ [])
            (λ list. AreTokensBelow self.now end (mutations_below self.now.log end) (arc_value list.now)) }
        ensures some { IfSome result (λ list. 0 < length (arc_value list.now)) }
        ensures ordered { IfSome result (λ list. All (λ token. HasOrder token.value) (arc_value list.now)) }
    {
        let count = count_below(last_list(&self.mutations), end);
        if count == 0 {
            return None;
        }
        let last = count - 1;
        Some(&self.mutations[last])
    }
}
