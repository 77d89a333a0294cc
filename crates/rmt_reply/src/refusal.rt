use rmt_names::PartName;
use rmt_values::{Limit, Name, ReplicaId};

/// Why a statement was refused.
#[derive(Drop)]
pub enum Refusal {
    /// The bytes are of no statement form; `offset` is the place of the first token that can't
    /// follow.
    Syntax { offset: usize },
    /// No table of this name was created.
    UnknownTable(Name),
    /// CREATE of a name that exists.
    TableExists(Name),
    /// The name is none of a replica's.
    UnknownReplica(Name),
    /// A named column isn't in the table.
    UnknownColumn(Name),
    /// A literal, divisor, setting, partition, seed or right side isn't of the type or range there, or the column of PARTITION
    /// BY isn't of UInt64, or a sum of a String, or a plain column that isn't grouped.
    WrongType(Name),
    /// This row, counted from 1, is the first with a wrong number of fields or a field that isn't a
    /// value of its column.
    BadRow(u64),
    /// UPDATE of a column of the sorting key, or of that of PARTITION BY.
    KeyColumn(Name),
    /// The replica was killed and not restarted.
    ReplicaDown(ReplicaId),
    /// RESTART of a replica that isn't down.
    ReplicaUp(ReplicaId),
    /// The statement drains this replica, and its fetches are stopped.
    FetchesStopped(ReplicaId),
    /// A quorum insert with fewer live replicas than it needs.
    TooFewLive { live: u32, need: u32 },
    /// A quorum insert while this part is pending.
    QuorumPending(PartName),
    /// A sequential SELECT that doesn't cover this last quorum part.
    NotInQuorum(PartName),
    /// The insert was committed, and fewer replicas have it than it needs.
    QuorumUnmet { have: u32, need: u32 },
    /// Two neighbours that can't be merged.
    Unmergeable { left: PartName, right: PartName },
    /// No mutation of this id was made.
    UnknownMutation(u128),
    /// The count would pass the limit.
    LimitReached { limit: Limit, value: u64 },
    /// A part that no live replica has, whose source is down.
    NoSource { part: PartName, replica: ReplicaId },
    /// A column is named twice.
    DoubleColumn(Name),
}
