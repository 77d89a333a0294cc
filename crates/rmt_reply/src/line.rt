ghost use Rattle.std.specs.Prelude.{◌≡◌};
ghost use Rattle.rmt_reply.specs.Summaries.{is_refused as refused_test};

use crate::granules::Granules;
use crate::piece::Piece;
use crate::refusal::Refusal;
use rmt_list::List;
use rmt_names::{PartName, PartitionId};
use rmt_query::Tuple;

/// The reply of a statement.
#[derive(Drop)]
pub enum Line {
    /// It was done.
    Okay,
    /// What became of the blocks of an INSERT, and the refusal that cut it short.
    Inserted {
        pieces: List<Piece>,
        refused: Option<Refusal>,
    },
    /// The rows of an answer.
    Rows(List<Tuple>),
    /// The parts that were read, and the rows of the answer.
    Read {
        parts: List<PartName>,
        rows: List<Tuple>,
    },
    /// How many granules of each part a query reads.
    Granules(Granules),
    /// The id of the mutation that was made.
    Mutation(u32),
    /// The blocks of the partition below this number were dropped; 0 where there is no such partition.
    Dropped {
        partition: PartitionId,
        below: u32,
    },
    /// The one part of each partition, and the refusal that cut the statement short.
    Optimized {
        names: List<PartName>,
        refused: Option<Refusal>,
    },
    /// The id of the mutation that is done.
    Done(u32),
    /// How many background events were made.
    Ran(u32),
    /// The lane of this number begins.
    Lane(u8),
    /// The lanes have ended.
    End,
    /// Names of parts.
    Parts(List<PartName>),
    /// Parts, each with the SHA-256 of its bytes.
    Digests(List<(PartName, [u8; 32])>),
    /// It was refused.
    Refused(Refusal),
}

impl Line {
    /// Whether it tells of a refusal. An INSERT or an OPTIMIZE that prints a refusal after its parts does.
    pub fn is_refused(&self) -> bool
        ensures { result ≡ refused_test self.now }
    {
        match self {
            Line::Refused(_) => true,
            Line::Inserted { refused, .. } | Line::Optimized { refused, .. } => refused.is_some(),
            _ => false,
        }
    }
}
