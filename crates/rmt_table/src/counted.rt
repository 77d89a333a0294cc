//! How many blocks went into live parts, as a copy of the log records it.
ghost use Rattle.std.specs.Prelude.{◌≡◌, ◌<◌, ◌^◌};
ghost use Rattle.rmt_values.specs.Order.{tally};
ghost use Rattle.rmt_model.specs.Words.{Has, Each};
ghost use Rattle.rmt_model.specs.Live.{live};
ghost use Rattle.rmt_model.specs.Lawful.{Lawful, block_count as block_count_of};
ghost use Rattle.rmt_table_model.specs.Counts.{recorded as recorded_of};

use rmt_entries::Entry;
use rmt_history::LogCopy;
use rmt_names::PartName;

/// The count of blocks that the entry has for the part that it makes; 0 where it makes none.
fn recorded(entry: &Entry) -> u32
    ensures { result ≡ recorded_of entry.now }
{
    match entry {
        Entry::Get { .. } => 1,
        Entry::Merge { count, .. } | Entry::Mutate { count, .. } => *count,
        Entry::Mutation { .. } | Entry::DropRange { .. } => 0,
    }
}

/// How many blocks are in a live part.
pub(crate) fn block_count(copy: &LogCopy, name: &PartName) -> u32
    requires lawful { Lawful copy.now.schema copy.now.log }
    requires living { Has (live copy.now.log) name.now }
    ensures { result ≡ block_count_of copy.now.log name.now }
{
    let Some(place) = copy.made_by(name) else {
        unreachable!()
    };
    let Some(token) = copy.entry(place) else {
        unreachable!()
    };
    recorded(token.value())
}

/// How many blocks are in live parts together.
pub(crate) fn block_sum(copy: &LogCopy, names: &[PartName]) -> u32
    requires lawful { Lawful copy.now.schema copy.now.log }
    requires living { Each (Has (live copy.now.log)) names.now }
    requires few { tally (block_count_of copy.now.log) names.now < 2 ^ 32 }
    ensures { result ≡ tally (block_count_of copy.now.log) names.now }
{
    let mut count = 0;
    'names: for name in names {
        count += block_count(copy, name);
    }
    count
}
