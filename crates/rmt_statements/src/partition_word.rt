ghost use Rattle.std.specs.Prelude.{◌≡◌};
ghost use Rattle.rmt_statements.specs.Partitions.{partition_named, partition_written};

use rmt_names::{PartitionId, partition_of_text};
use rmt_values::{Blob, PartitionRule};

/// How a statement names a partition.
#[derive(Debug, Drop)]
pub enum PartitionWord {
    Number(u128),
    /// `tuple()`.
    Tuple,
    /// A partition's id, as a text.
    Id(Blob),
}

impl PartitionWord {
    /// The partition that it names, of one table or another.
    fn partition(&self) -> Option<PartitionId>
        ensures { result ≡ partition_written self.now }
    {
        match self {
            PartitionWord::Number(number) => Some(Some(u64::try_from(*number).ok()?)),
            PartitionWord::Tuple => Some(None),
            PartitionWord::Id(text) => partition_of_text(text.as_bytes()),
        }
    }

    /// The partition that it names in a table of this rule; `None` where it names none. Without a rule it is `tuple()` or
    /// the id `all`; with one, a number of 64 bits, or an id that is its decimal text without leading zeros.
    pub fn partition_in(&self, rule: Option<PartitionRule>) -> Option<PartitionId>
        ensures { result ≡ partition_named rule self.now }
    {
        match (rule, self.partition()?) {
            (None, None) => Some(None),
            (Some(_), Some(number)) => Some(Some(number)),
            _ => None,
        }
    }
}
