//! What one client knows of one table, as data.
#![tactic(auto)]

mod covering;
mod known_table;
mod marks;
mod quorums;
mod replicas;

pub use known_table::KnownTable;
