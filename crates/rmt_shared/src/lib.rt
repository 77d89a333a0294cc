//! What threads share: what lies under the locks of all tables and of each replica.
#![tactic(auto)]

mod naming;
mod shared_replica;
mod shared_tables;
mod supply;

pub use naming::{ClientEntries, Naming};
pub use shared_replica::SharedReplica;
pub use shared_tables::SharedTables;
pub use supply::{build_supply, send_supply};

#[cfg(test)]
mod tests;
