//! Which entries of a log are done at a replica.
#![tactic(auto)]

mod queue;

pub use queue::Queue;
