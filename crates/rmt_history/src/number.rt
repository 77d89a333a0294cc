//! The number of a mutation in a partition, by bisection.
ghost use Rattle.std.specs.Prelude.{◌≡◌, nat_lt};
ghost use Rattle.rmt_names.specs.Names.{rank};
ghost use Rattle.rmt_history.specs.Mutations.{AreInOrder, HasOrder, number_among as number_among_of, number_in as number_in_of};
ghost use Rattle.rmt_model.specs.Choices.{is_pending as is_pending_of};

use rmt_entries::Entry;
use rmt_names::{PartName, PartitionId, data_version};

/// Whether the pair's partition comes before this one.
fn is_earlier(pair: &(PartitionId, u32), partition: PartitionId) -> bool
    ensures { result ≡ nat_lt (rank pair.now.0) (rank partition) }
{
    pair.0 < partition
}

/// The number in a partition among pairs in order of their partitions; none where the partition isn't there. By bisection.
pub fn number_among(pairs: &[(PartitionId, u32)], partition: PartitionId) -> Option<u32>
    requires { AreInOrder pairs.now }
    ensures { result ≡ number_among_of pairs.now partition }
{
    let at = pairs.partition_point(|pair| is_earlier(pair, partition));
    if at >= pairs.len() {
        return None;
    }
    let (found, number) = pairs[at];
    if found != partition {
        return None;
    }
    Some(number)
}

/// The number that a mutation takes in a partition; none where it takes none there, and for every other entry. By bisection.
pub fn number_in(entry: &Entry, partition: PartitionId) -> Option<u32>
    requires { HasOrder entry.now }
    ensures { result ≡ number_in_of entry.now partition }
{
    match entry {
        Entry::Mutation { numbers, .. } => number_among(numbers.as_slice(), partition),
        _ => None,
    }
}

/// Whether the entry is a mutation that is pending for the part.
pub(crate) fn is_pending(name: &PartName, entry: &Entry) -> bool
    requires { HasOrder entry.now }
    ensures { result ≡ is_pending_of name.now entry.now }
{
    let Some(number) = number_in(entry, name.partition()) else {
        return false;
    };
    data_version(name) < number
}
