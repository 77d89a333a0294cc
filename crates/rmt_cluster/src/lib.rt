//! A table, its replicas, and the events that move them.
#![tactic(auto)]

mod acting;
mod attempt;
mod attempts;
mod causes;
mod cluster;
mod entries;
mod inserts;
mod sync_error;

pub use cluster::Cluster;
pub use sync_error::SyncError;
