//! What one client knows of the tables that it shares with workers, and its steps at them, each under one lock.
#![tactic(auto)]

mod committed;
mod learned;
mod lost_part;
mod mutated;
mod numbered;
mod pass;

pub use committed::Committed;
pub use mutated::Mutated;
pub use numbered::Numbered;
pub use pass::Pass;
