use crate::sent::Sent;
use rmt_list::List;
use rmt_values::{Column, Name};

/// A statement of a script.
#[derive(Drop)]
pub enum Statement {
    /// How many replicas there are, 1 to 8.
    Replicas {
        count: u8,
    },
    Create {
        table: Name,
        columns: List<Column>,
        /// The partition column and its divisor, 1 for the column itself.
        partition: Option<(Name, u128)>,
        /// The columns of the sorting key, in their order.
        key: List<Name>,
        /// The number of `index_granularity`.
        granularity: Option<u128>,
        /// The number of `replicated_deduplication_window`.
        window: Option<u128>,
    },
    Kill {
        replica: Name,
    },
    Restart {
        replica: Name,
    },
    /// So many turns of background work, drawn from a seed.
    Run {
        table: Name,
        turns: u128,
        seed: u128,
    },
    /// 1 to 8 lanes of statements that are played at the same time.
    Lanes {
        lanes: List<List<Sent>>,
    },
    /// Does something at a replica.
    At(Sent),
}
