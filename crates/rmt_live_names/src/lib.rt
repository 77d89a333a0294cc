//! What a copy of a log has of live names by partition, and of mutations by id: what OPTIMIZE and WAIT MUTATION go by.
#![tactic(auto)]

mod live;
mod mutations;
mod optimization;
mod optimized;

pub use live::{live_names, partitions};
pub use mutations::{all_mutations, place_of};
pub use optimization::Optimization;
pub use optimized::Optimized;
