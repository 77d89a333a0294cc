//! The name of parts merged.
ghost use Rattle.std.specs.Prelude.{◌≡◌, ◌<◌, MatchOption};
ghost use Rattle.rmt_names.specs.Names.{CanMerge, IsMergedOf, IsJoined, IsNext};

use crate::name::PartName;

/// The name of the part that these merge into: the first min, the last max, one level above the highest, and the greatest
/// mutation. None where they are fewer than two, aren't of one partition and rising without overlap, or a level is
/// 4,294,967,295.
///
/// ClickHouse documentation, MergeTree, "Data storage".
pub fn merged(sources: &[PartName]) -> Option<PartName>
    ensures { MatchOption result (CanMerge sources.now → ⊥) (IsMergedOf sources.now) }
{
    let [first, rest @ ..] = sources else {
        return None;
    };
    if rest.is_empty() {
        return None;
    }
    let mut new = *first;
    'sources: for next in rest {
        new = joined(&new, next)?;
    }
    let level = new.level().checked_add(1)?;
    Some(PartName::new(new.partition(), new.min(), new.max(), level, new.mutation()))
}

/// What a name and the next one span together, at the higher level and with the later mutation.
fn joined(a: &PartName, next: &PartName) -> Option<PartName>
    ensures { MatchOption result (IsNext a.now next.now → ⊥) (IsJoined a.now next.now) }
{
    if a.partition() != next.partition() || a.max() >= next.min() {
        return None;
    }
    let level = a.level().max(next.level());
    let mutation = a.mutation().max(next.mutation());
    Some(PartName::new(a.partition(), a.min(), next.max(), level, mutation))
}
