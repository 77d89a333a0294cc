//! One replica of a table: its copy of the log, its active parts, its staged blocks, and which entries it has done; and what
//! a cluster sees of it.
#![tactic(auto)]

mod apply_error;
mod block_number;
mod entry_state;
pub mod laws;
mod replica;
mod replica_error;
mod staged;
mod supply;
mod why;

pub use apply_error::ApplyError;
pub use block_number::BlockNumber;
pub use replica::Replica;
pub use replica_error::ReplicaError;
pub use rmt_events::Applied;
pub use supply::Supply;
pub use why::Why;
