//! What executes acts in a table: a cluster, whose bodies are those of `rmt_acts`, or what has workers beside it.
#![tactic(auto)]

mod acting;
mod stepped;

pub use acting::Acting;
