//! What statements do in one table, by events of its cluster.
#![tactic(auto)]

mod attempt;
mod background;
mod begun;
mod checking;
mod committed;
mod drop;
mod gathering;
mod insert;
mod insertion;
mod mutation;
mod optimizing;
mod outcome;
mod reading;
mod sequential;
mod switching;
mod syncing;
mod waiting;

pub use background::{kill, restart, restart_replica, run_turns};
pub use checking::{digests_of, part_digests};
pub use drop::drop_partition;
pub use insert::insert_blocks;
pub use insertion::Insertion;
pub use mutation::{mutate, mutations_made};
pub use optimizing::optimize;
pub use reading::{answer_up_to_date, read_parts, schema_of};
pub use sequential::read_in_quorum;
pub use switching::{may_fetch, switch_fetches};
pub use syncing::sync_replica;
pub use waiting::wait_for;
