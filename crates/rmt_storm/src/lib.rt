//! A workload: a script that a generator draws from a seed.
#![tactic(auto)]

mod draws;
mod inserts;
mod scripts;
mod storm;
#[cfg(test)]
mod tests;
mod texts;

pub use scripts::script;
