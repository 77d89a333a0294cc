//! Whether a drop takes parts away that stand in order, by binary search.
ghost use Rattle.std.specs.Prelude.{◌≡◌, ◌||◌, ◌&&◌, nat_eq, nat_le, nat_lt, not};
ghost use Rattle.std.specs.List.{list_any, prefix_len};
ghost use Rattle.std.specs.declared.option.Option.TheVariants.{None};
ghost use Rattle.rmt_names.specs.Names.{rank};
ghost use Rattle.rmt_entries.specs.Entries.{result_name};
ghost use Rattle.rmt_model.specs.Live.{in_drop};
ghost use Rattle.rmt_nameset.specs.NameSets.{AreApart};
ghost use Rattle.rmt_partset.specs.Snapshots.{names_in};
ghost use Rattle.rmt_readings.specs.Checks.{takes};

use rmt_entries::Entry;
use rmt_names::{PartName, PartitionId};
use rmt_partset::NamedPart;

/// Whether the name lies in an earlier partition.
fn is_earlier(a: &PartName, partition: PartitionId) -> bool
    ensures { result ≡ nat_lt (rank a.now.partition) (rank partition) }
{
    a.partition() < partition
}

/// Whether the name lies in an earlier partition, or in this one up to the number.
fn is_up_to(a: &PartName, partition: PartitionId, number: u32) -> bool
    ensures { result ≡ (nat_lt (rank a.now.partition) (rank partition) || (nat_eq (rank a.now.partition) (rank partition) && nat_le a.now.max number)) }
{
    let max = a.max();
    a.partition() < partition || (a.partition() == partition && max <= number)
}

/// How many of the parts lie in earlier partitions.
fn count_earlier(parts: &[NamedPart], partition: PartitionId) -> usize
    requires { AreApart (names_in parts.now) }
    ensures { result ≡ prefix_len (λ a. nat_lt (rank a.partition) (rank partition)) (names_in parts.now) }
{
    parts.partition_point(|part| is_earlier(part.name(), partition))
}

/// How many of them lie in earlier partitions, or in this one up to the number.
fn count_up_to(parts: &[NamedPart], partition: PartitionId, number: u32) -> usize
    requires { AreApart (names_in parts.now) }
    ensures { result ≡ prefix_len (λ a. nat_lt (rank a.partition) (rank partition) || (nat_eq (rank a.partition) (rank partition) && nat_le a.max number)) (names_in parts.now) }
{
    parts.partition_point(|part| is_up_to(part.name(), partition, number))
}

/// Whether a drop of the numbers of a partition up to one takes one of the parts away.
fn has_dropped(parts: &[NamedPart], partition: PartitionId, number: u32) -> bool
    requires { AreApart (names_in parts.now) }
    ensures { result ≡ list_any (in_drop partition number) (names_in parts.now) }
{
    count_earlier(parts, partition) < count_up_to(parts, partition, number)
}

/// Whether an entry that makes no part takes none of the parts away.
pub(crate) fn leaves_all(entry: &Entry, parts: &[NamedPart]) -> bool
    requires none { result_name entry.now ≡ None }
    requires apart { AreApart (names_in parts.now) }
    ensures { result ≡ not (list_any (takes entry.now) (names_in parts.now)) }
{
    match entry {
        Entry::DropRange { partition, number } => !has_dropped(parts, *partition, *number),
        _ => true,
    }
}
