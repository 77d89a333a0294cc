//! Where a name, a partition or a number stands among names in order, by binary search.
ghost use Rattle.std.specs.Prelude.{◌≡◌, ◌≤◌, ◌&&◌, ◌||◌, length, not, nat_eq, nat_lt, nat_le};
ghost use Rattle.std.specs.List.{prefix_len};
ghost use Rattle.rmt_names.specs.Names.{rank};
ghost use Rattle.rmt_model.specs.Live.{before as before_of};
ghost use Rattle.rmt_nameset.specs.NameSets.{AreApart};

use rmt_names::{PartName, PartitionId};

/// Whether a lies wholly before b: in an earlier partition, or below it in the same one.
pub fn before(a: &PartName, b: &PartName) -> bool
    ensures { result ≡ before_of a.now b.now }
{
    a.partition() < b.partition() || (a.partition() == b.partition() && a.max() < b.min())
}

/// How many lie wholly before the name.
pub(crate) fn count_before(names: &[PartName], new: &PartName) -> usize
    requires { AreApart names.now }
    ensures { result ≡ prefix_len (λ a. before_of a new.now) names.now }
{
    names.partition_point(|a| before(a, new))
}

/// Whether the name lies wholly after this number of a partition: in a later one, or above it in the same one.
pub fn is_after(a: &PartName, partition: PartitionId, number: u32) -> bool
    ensures { result ≡ (nat_lt (rank partition) (rank a.now.partition) || (nat_eq (rank partition) (rank a.now.partition) && nat_lt number a.now.min)) }
{
    partition < a.partition() || (partition == a.partition() && number < a.min())
}

/// How many don't lie wholly after this number of a partition.
fn count_up_from(names: &[PartName], partition: PartitionId, number: u32) -> usize
    requires { AreApart names.now }
    ensures count { result ≡ prefix_len (λ a. not (nat_lt (rank partition) (rank a.partition) || (nat_eq (rank partition) (rank a.partition) && nat_lt number a.min))) names.now }
    ensures bound { result ≤ length names.now }
{
    names.partition_point(|a| !is_after(a, partition, number))
}

/// How many don't lie wholly after the name.
pub(crate) fn count_not_behind(names: &[PartName], new: &PartName) -> usize
    requires { AreApart names.now }
    ensures count { result ≡ prefix_len (λ a. not (before_of new.now a)) names.now }
    ensures bound { result ≤ length names.now }
    ensures ordered { new.now.min ≤ new.now.max }
{
    count_up_from(names, new.partition(), new.max())
}

/// Whether the name lies in an earlier partition.
fn is_earlier(a: &PartName, partition: PartitionId) -> bool
    ensures { result ≡ nat_lt (rank a.now.partition) (rank partition) }
{
    a.partition() < partition
}

/// Whether the name lies in an earlier partition, or in this one up to the number.
fn is_up_to(a: &PartName, partition: PartitionId, number: u32) -> bool
    ensures { result ≡ (nat_lt (rank a.now.partition) (rank partition) || (nat_eq (rank a.now.partition) (rank partition) && nat_le a.now.max number)) }
{
    a.partition() < partition || (a.partition() == partition && a.max() <= number)
}

/// How many lie in earlier partitions.
pub(crate) fn count_earlier(names: &[PartName], partition: PartitionId) -> usize
    requires { AreApart names.now }
    ensures { result ≡ prefix_len (λ a. nat_lt (rank a.partition) (rank partition)) names.now }
{
    names.partition_point(|a| is_earlier(a, partition))
}

/// How many lie in earlier partitions, or in this one up to the number.
pub(crate) fn count_up_to(names: &[PartName], partition: PartitionId, number: u32) -> usize
    requires { AreApart names.now }
    ensures { result ≡ prefix_len (λ a. nat_lt (rank a.partition) (rank partition) || (nat_eq (rank a.partition) (rank partition) && nat_le a.max number)) names.now }
{
    names.partition_point(|a| is_up_to(a, partition, number))
}
