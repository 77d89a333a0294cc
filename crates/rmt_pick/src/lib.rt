//! The choice of what to merge and what to mutate next.
#![tactic(auto)]

pub mod laws;
mod limits;
mod merging;
mod mutating;
mod run;

pub use limits::Limits;
pub use merging::choose;
pub use mutating::next_mutation;
