//! The block number that each partition of a table gives next.
#![tactic(auto)]

mod partitions;

pub use partitions::Partitions;
