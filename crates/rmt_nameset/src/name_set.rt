ghost use Rattle.std.specs.Prelude.{◌≡◌, ◌<◌, [], not, filter, length, OnOk, IsTrue, ◌↔◌};
ghost use Rattle.rmt_names.specs.Names.{Overlap, Covers};
ghost use Rattle.rmt_model.specs.Words.{Has, Each};
ghost use Rattle.rmt_model.specs.Live.{placed, in_drop};
ghost use Rattle.rmt_nameset.specs.NameSets.{AreApart, IsRange, IsCoveredAt, cut, put};

use crate::range::Range;
use crate::replacement::{covered_range, dropped_range, remove, replace};
use crate::search::count_not_behind;
use rmt_names::{PartName, PartitionId, covers};
use std::alloc::{AllocError, Global};
use std::marker::Model;

/// Names of parts in order, of which no two share a number. Contracts see the list of them, and how many more there is
/// room for.
#[derive(Debug, Drop)]
pub struct NameSet {
    names: Vec<PartName>,
}

impl Model for NameSet {
    ghost use Rattle.std.specs.Prelude.{◌-◌, vec_len, vec_capacity};
    ghost use Rattle.rmt_nameset.specs.NameSets.{NamesInOrder, AreApart};

    ghost Value = { NamesInOrder };

    ghost view = { λ s. record { names = s.names.items; room = vec_capacity s.names - vec_len s.names } };

    ghost invariant = { λ s. AreApart s.names.items };
}

impl NameSet {
    /// One without names.
    pub fn new(alloc: Global) -> NameSet
        ensures { result.names ≡ [] }
    {
        NameSet {
            names: Vec::new(alloc),
        }
    }

    /// The names, in order of partition and number.
    pub fn as_slice(&self) -> &[PartName]
        ensures names { result.now ≡ self.now.names }
        ensures apart { AreApart self.now.names }
    {
        &self.names
    }

    /// Makes room for one more name. At an error no memory was left.
    pub fn reserve(&mut self) -> Result<(), AllocError>
        ensures names { self.new.names ≡ self.old.names }
        ensures ok { OnOk result (0 < self.new.room) }
    {
        self.names.reserve(1)?;
        Ok(())
    }

    /// Puts a name in place of those that it covers, and tells where they stood. It takes no memory.
    pub fn place(&mut self, new: PartName) -> Range
        requires over { Each (λ a. Overlap new a → Covers new a) self.old.names }
        requires room { 0 < self.old.room }
        ensures names { self.new.names ≡ placed new self.old.names }
        ensures put { self.new.names ≡ put self.old.names result new }
        ensures range { IsRange result (length self.old.names) }
    {
        let range = covered_range(&self.names, &new);
        replace(&mut self.names, range, new);
        range
    }

    /// Takes the names of a partition away whose highest number is at most this one, and tells where they stood.
    pub fn drop_up_to(&mut self, partition: PartitionId, number: u32) -> Range
        ensures names { self.new.names ≡ filter (λ a. not (in_drop partition number a)) self.old.names }
        ensures cut { self.new.names ≡ cut self.old.names result }
        ensures range { IsRange result (length self.old.names) }
    {
        let range = dropped_range(&self.names, partition, number);
        remove(&mut self.names, range);
        range
    }

    /// The place of the name that covers this one; none where no name does.
    pub fn covering(&self, name: &PartName) -> Option<usize>
        ensures { IsCoveredAt self.now.names name.now result }
    {
        let up_to = count_not_behind(&self.names, name);
        if up_to == 0 {
            return None;
        }
        if !covers(&self.names[up_to - 1], name) {
            return None;
        }
        Some(up_to - 1)
    }

    /// Whether it has the name.
    pub fn contains(&self, name: &PartName) -> bool
        ensures { IsTrue result ↔ Has self.now.names name.now }
    {
        let Some(at) = self.covering(name) else {
            return false;
        };
        covers(name, &self.names[at])
    }
}
