//! The active parts of a replica, and what a query reads of them.
#![tactic(auto)]

mod named_part;
mod part_set;
mod search;
mod snapshot;

pub use named_part::NamedPart;
pub use part_set::PartSet;
pub use snapshot::Snapshot;
