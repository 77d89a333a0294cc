//! What a worker may merge, and which parts it may mutate.
ghost use Rattle.std.specs.Prelude.{◌≡◌, ◌↔◌, IsTrue};
ghost use Rattle.rmt_model.specs.Words.{Each};
ghost use Rattle.rmt_events.specs.LogEvents.{AreMergeable, IsMutable};

use rmt_history::{LogCopy, number_in};
use rmt_names::{PartName, PartitionId};

/// Whether all names are of a partition.
fn are_of(names: &[PartName], partition: PartitionId) -> bool
    ensures { IsTrue result ↔ Each (λ c. c.partition ≡ partition) names.now }
{
    'names: for name in names {
        if name.partition() != partition {
            return false;
        }
    }
    true
}

/// Whether the names are two or more neighbours of one partition among the live names of a copy: what `assign_merge` may merge.
/// It takes a step for each name.
pub fn are_mergeable(copy: &LogCopy, names: &[PartName]) -> bool
    ensures { IsTrue result ↔ AreMergeable copy.now.log names.now }
{
    let [first, rest @ ..] = names else {
        return false;
    };
    if rest.is_empty() {
        return false;
    }
    are_of(rest, first.partition()) && copy.neighbours(names)
}

/// Whether a name is live in a copy, and the mutation at a place is pending for it: what `assign_mutate` may bring up to it.
/// It searches the mutation's partitions by bisection.
pub fn is_mutable(copy: &LogCopy, old: &PartName, upto: usize) -> bool
    ensures { IsTrue result ↔ IsMutable copy.now.log old.now upto }
{
    // The copy says of its log that it is lawful.
    let _len = copy.len();
    let Some(token) = copy.entry(upto) else {
        return false;
    };
    let Some(number) = number_in(token.value(), old.partition()) else {
        return false;
    };
    copy.neighbours(&[*old]) && copy.ver(old) < number
}
