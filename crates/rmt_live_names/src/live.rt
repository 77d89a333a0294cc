//! Live names by partition.
ghost use Rattle.std.specs.Prelude.{◌≡◌, IfOk, filter, map, nat_eq, nat_lt};
ghost use Rattle.rmt_model.specs.Words.{Pairwise};
ghost use Rattle.rmt_model.specs.Live.{Before};
ghost use Rattle.rmt_names.specs.Names.{rank};
ghost use Rattle.rmt_statement_model.specs.Optimizes.{live_of, partitions_asked};

use rmt_history::LogCopy;
use rmt_list::List;
use rmt_names::{PartName, PartitionId};
use std::alloc::{AllocError, Global};

/// Whether two partitions are one.
fn are_same(left: PartitionId, right: PartitionId) -> bool
    ensures { result ≡ nat_eq (rank left) (rank right) }
{
    left == right
}

/// Whether the name's partition comes before this one.
fn is_earlier(name: &PartName, partition: PartitionId) -> bool
    ensures { result ≡ nat_lt (rank name.now.partition) (rank partition) }
{
    name.partition() < partition
}

/// Those of the names that are of a partition: they stand side by side, and are found by bisection.
fn of_partition(names: &[PartName], partition: PartitionId) -> &[PartName]
    requires in_order { Pairwise Before names.now }
    ensures { result.now ≡ filter (λ a. nat_eq (rank a.partition) (rank partition)) names.now }
{
    let first = names.partition_point(|name| is_earlier(name, partition));
    let later = names.split_at(first).1;
    let count = later.partition_point(|name| are_same(name.partition(), partition));
    later.split_at(count).0
}

/// Returns the live names of a partition, in order: none where it has none. At an error no memory was left.
pub fn live_names(
    alloc: Global,
    copy: &LogCopy,
    partition: PartitionId,
) -> Result<List<PartName>, AllocError>
    ensures { IfOk result (λ names. names ≡ live_of copy.now.log partition) }
{
    // The log of a copy is lawful, so that its live names are in order.
    let _entries = copy.len();
    let names = Vec::from_slice(alloc, of_partition(copy.live(), partition))?;
    Ok(List::new(names))
}

/// The partition of each name.
fn each_partition(alloc: Global, names: &[PartName]) -> Result<Vec<PartitionId>, AllocError>
    ensures { IfOk result (λ all. all.items ≡ map (λ a. a.partition) names.now) }
{
    names.iter().map(|name| name.partition()).collect(alloc)
}

/// Returns the partitions that are asked for, in order: of those that have live names all, or the one that is named. At an error no
/// memory was left.
pub fn partitions(
    alloc: Global,
    copy: &LogCopy,
    asked: Option<PartitionId>,
) -> Result<Vec<PartitionId>, AllocError>
    ensures { IfOk result (λ all. all.items ≡ partitions_asked asked copy.now.log) }
{
    let mut all = each_partition(alloc, copy.live())?;
    all.dedup();
    if let Some(partition) = asked {
        all.retain(|other| are_same(*other, partition));
    }
    Ok(all)
}
