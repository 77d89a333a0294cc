//! What a background worker does next at a replica.
#![tactic(auto)]

mod job;
pub mod laws;
mod next;

pub use job::Job;
pub use next::next_job;
