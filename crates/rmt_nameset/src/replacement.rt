//! The ranges of names in order that a new name or a drop takes away.
ghost use Rattle.std.specs.Prelude.{◌≡◌, ◌≤◌, ◌<◌, length, vec_len, vec_capacity};
ghost use Rattle.rmt_names.specs.Names.{Overlap, Covers};
ghost use Rattle.rmt_model.specs.Words.{Each};
ghost use Rattle.rmt_nameset.specs.NameSets.{AreApart, IsRange, IsCoveredBy, IsDroppedBy, cut, put};

use crate::range::Range;
use crate::search::{count_before, count_earlier, count_not_behind, count_up_to};
use rmt_names::{PartName, PartitionId};

/// Where the names stand that the new one covers.
pub(crate) fn covered_range(names: &[PartName], new: &PartName) -> Range
    requires apart { AreApart names.now }
    requires over { Each (λ a. Overlap new.now a → Covers new.now a) names.now }
    ensures range { IsRange result (length names.now) }
    ensures covered { IsCoveredBy new.now names.now result }
    ensures ordered { new.now.min ≤ new.now.max }
{
    let from = count_before(names, new);
    let to = count_not_behind(names, new);
    Range { from, to }
}

/// Where the names of a partition stand whose highest number is at most this one.
pub(crate) fn dropped_range(names: &[PartName], partition: PartitionId, number: u32) -> Range
    requires apart { AreApart names.now }
    ensures range { IsRange result (length names.now) }
    ensures dropped { IsDroppedBy partition number names.now result }
{
    let from = count_earlier(names, partition);
    let to = count_up_to(names, partition, number);
    Range { from, to }
}

/// Takes the names of a range away.
pub(crate) fn remove(names: &mut Vec<PartName>, range: Range)
    requires { IsRange range (vec_len names.old) }
    ensures items { names.new.items ≡ cut names.old.items range }
    ensures room { vec_capacity names.new ≡ vec_capacity names.old }
    ensures shorter { vec_len names.new ≤ vec_len names.old }
    ensures longer { range.from ≤ vec_len names.new }
{
    names.drain(range.from..range.to);
}

/// Puts a name in place of those of a range, where there is room.
pub(crate) fn replace(names: &mut Vec<PartName>, range: Range, new: PartName)
    requires range { IsRange range (vec_len names.old) }
    requires room { vec_len names.old < vec_capacity names.old }
    ensures items { names.new.items ≡ put names.old.items range new }
{
    remove(names, range);
    names.insert(range.from, new).unwrap();
}
