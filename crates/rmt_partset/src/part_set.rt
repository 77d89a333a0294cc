ghost use Rattle.std.specs.Prelude.{◌≡◌, ◌≤◌, ◌<◌, ◌+◌, ◌↔◌, ◌-◌, [], map, not, length, MatchOption, IsTrue, IfOk, OnOk, OnErr, vec_len, vec_capacity};
ghost use Rattle.std.specs.Arc.{arc_value};
ghost use Rattle.std.specs.List.{prefix_len};
ghost use Rattle.rmt_model.specs.Live.{before as before_of};
ghost use Rattle.rmt_names.specs.Names.{Name, Covers, Overlap};
ghost use Rattle.rmt_model.specs.Words.{Has, Each};
ghost use Rattle.rmt_nameset.specs.NameSets.{IsRange, AreApart, cut, put};
ghost use Rattle.rmt_partset.specs.ActiveParts.{Replace, Drop, after, part_names, shown, IsCovering};

use crate::named_part::NamedPart;
use crate::search::{count_before, count_not_behind, is_left};
use crate::snapshot::Snapshot;
use rmt_names::{PartName, PartitionId, covers};
use rmt_nameset::Range;
use rmt_part::Part;
use std::alloc::{AllocError, Global};
use std::marker::Model;
use std::sync::Arc;

/// The active parts of a replica, in order of partition and number. Contracts see the list of them, and how many more there
/// is room for.
#[derive(Drop)]
pub struct PartSet {
    parts: Vec<Arc<Part, Global>>,
}

impl Model for PartSet {
    ghost use Rattle.std.specs.Prelude.{◌-◌, map, vec_len, vec_capacity};
    ghost use Rattle.std.specs.Arc.{arc_value};
    ghost use Rattle.rmt_nameset.specs.NameSets.{AreApart};
    ghost use Rattle.rmt_partset.specs.ActiveParts.{ActiveParts, part_names};
    ghost use Rattle.std.specs.Coded.{codes};
    ghost use Rattle.rmt_values.specs.contracts.checked.Checked as filter;

    ghost Value = { ActiveParts };

    ghost coded = { Prim.hlevel (codes, filter.the_row.coded) };

    ghost view = { λ s. record { parts = map arc_value s.parts.items; room = vec_capacity s.parts - vec_len s.parts } };

    ghost invariant = { λ s. AreApart (part_names (map arc_value s.parts.items)) };
}

/// Where the parts stand that the name covers.
fn covered_range(parts: &[Arc<Part, Global>], new: &PartName) -> Range
    requires apart { AreApart (part_names (map arc_value parts.now)) }
    requires over { Each (λ a. Overlap new.now a → Covers new.now a) (part_names (map arc_value parts.now)) }
    ensures range { IsRange result (length parts.now) }
    ensures from { result.from ≡ prefix_len (λ a. before_of a new.now) (part_names (map arc_value parts.now)) }
    ensures to { result.to ≡ prefix_len (λ a. not (before_of new.now a)) (part_names (map arc_value parts.now)) }
    ensures ordered { new.now.min ≤ new.now.max }
{
    let from = count_before(parts, new);
    let to = count_not_behind(parts, new);
    Range { from, to }
}

/// Puts a part in place of those of a range, where there is room.
fn put_part(parts: &mut Vec<Arc<Part, Global>>, range: Range, part: Arc<Part, Global>)
    requires range { IsRange range (vec_len parts.old) }
    requires room { vec_len parts.old < vec_capacity parts.old }
    ensures items { parts.new.items ≡ put parts.old.items range part }
    ensures room { vec_capacity parts.old - vec_len parts.old ≤ vec_capacity parts.new - vec_len parts.new + 1 }
{
    parts.drain(range.from..range.to);
    parts.insert(range.from, part).unwrap();
}

impl PartSet {
    /// One without parts.
    pub fn new(alloc: Global) -> PartSet
        ensures { result.parts ≡ [] }
    {
        PartSet {
            parts: Vec::new(alloc),
        }
    }

    /// How many parts there are.
    pub fn len(&self) -> usize
        ensures len { result ≡ length self.now.parts }
        ensures apart { AreApart (part_names self.now.parts) }
    {
        self.parts.len()
    }

    /// Makes room for one replacement. At an error no memory was left, and the parts are as they were.
    pub fn reserve(&mut self) -> Result<(), AllocError>
        ensures parts { self.new.parts ≡ self.old.parts }
        ensures ok { OnOk result (0 < self.new.room) }
    {
        self.parts.reserve(1)?;
        Ok(())
    }

    /// Puts a part in place of those that it covers, where there is room. It takes no memory.
    pub fn replace(&mut self, part: Arc<Part, Global>)
        requires over { Each (λ a. Overlap (arc_value part).name a → Covers (arc_value part).name a) (part_names self.old.parts) }
        requires room { 0 < self.old.room }
        ensures parts { self.new.parts ≡ after (Replace (arc_value part)) self.old.parts }
        ensures room { self.old.room ≤ self.new.room + 1 }
    {
        let range = covered_range(&self.parts, part.name());
        put_part(&mut self.parts, range, part);
    }

    /// Takes the parts of a partition away whose highest number is at most this one and which were made before a place of
    /// the log. It takes no memory.
    pub fn drop_range(&mut self, partition: PartitionId, number: u32, before: usize)
        ensures { self.new.parts ≡ after (Drop partition number before) self.old.parts }
    {
        self.parts
            .retain(|part| is_left(part, partition, number, before));
    }

    /// The part that covers the name; none where no part does. It takes no memory.
    pub fn covering(&self, name: &PartName) -> Option<&Arc<Part, Global>>
        ensures found { MatchOption result ((a : Name) → Has (part_names self.now.parts) a → Covers a name.now → ⊥) (λ part. IsCovering self.now.parts name.now (arc_value part.now)) }
        ensures apart { AreApart (part_names self.now.parts) }
    {
        let up_to = count_not_behind(&self.parts, name);
        if up_to == 0 {
            return None;
        }
        let part = &self.parts[up_to - 1];
        if !covers(part.name(), name) {
            return None;
        }
        Some(part)
    }

    /// Whether a part has the name. It takes no memory.
    pub fn contains(&self, name: &PartName) -> bool
        ensures { IsTrue result ↔ Has (part_names self.now.parts) name.now }
    {
        match self.covering(name) {
            Some(part) => covers(name, part.name()),
            None => false,
        }
    }

    /// The names and the data of the parts, as a query reads them. At an error no memory was left.
    pub fn snapshot(&self, alloc: Global) -> Result<Snapshot, AllocError>
        ensures { IfOk result (λ s. s ≡ shown self.now.parts) }
    {
        let parts = named_parts(alloc, &self.parts)?;
        Ok(Snapshot::of(parts))
    }
}

/// The name and the data of each part.
fn named_parts(alloc: Global, parts: &[Arc<Part, Global>]) -> Result<Vec<NamedPart>, AllocError>
    ensures { IfOk result (λ all. all.items ≡ shown (map arc_value parts.now)) }
{
    let mut all = Vec::with_capacity(alloc, parts.len())?;
    'parts: for part in parts {
        all.push(NamedPart::new(*part.name(), Arc::try_clone(part.body())?))?;
    }
    Ok(all)
}
