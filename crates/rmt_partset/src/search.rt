//! Where a name stands among parts in order, by binary search.
ghost use Rattle.std.specs.Prelude.{◌≡◌, ◌≤◌, ◌&&◌, map, length, not, nat_lt};
ghost use Rattle.std.specs.List.{prefix_len};
ghost use Rattle.std.specs.Arc.{arc_value};
ghost use Rattle.rmt_model.specs.Live.{before as before_of, in_drop};
ghost use Rattle.rmt_nameset.specs.NameSets.{AreApart};
ghost use Rattle.rmt_partset.specs.ActiveParts.{part_names};

use rmt_names::{PartName, PartitionId};
use rmt_nameset::{before, is_after};
use rmt_part::Part;
use std::alloc::Global;
use std::sync::Arc;

/// How many lie wholly before the name.
pub(crate) fn count_before(parts: &[Arc<Part, Global>], new: &PartName) -> usize
    requires { AreApart (part_names (map arc_value parts.now)) }
    ensures { result ≡ prefix_len (λ a. before_of a new.now) (part_names (map arc_value parts.now)) }
{
    parts.partition_point(|part| before(part.name(), new))
}

/// How many don't lie wholly after the name.
pub(crate) fn count_not_behind(parts: &[Arc<Part, Global>], new: &PartName) -> usize
    requires { AreApart (part_names (map arc_value parts.now)) }
    ensures count { result ≡ prefix_len (λ a. not (before_of new.now a)) (part_names (map arc_value parts.now)) }
    ensures bound { result ≤ length parts.now }
    ensures ordered { new.now.min ≤ new.now.max }
{
    let partition = new.partition();
    let number = new.max();
    parts.partition_point(|part| !is_after(part.name(), partition, number))
}

/// Whether a drop of a partition's parts up to a number leaves the part, since it isn't of these or wasn't made before the
/// place.
pub(crate) fn is_left(part: &Part, partition: PartitionId, number: u32, place: usize) -> bool
    ensures { result ≡ not (in_drop partition number part.now.name && nat_lt part.now.made.place place) }
{
    let name = part.name();
    name.partition() != partition || name.max() > number || part.made().place() >= place
}
