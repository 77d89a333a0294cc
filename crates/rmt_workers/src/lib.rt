//! The crew: what clients and workers do at tables that they share, each step under the locks that it needs.
#![tactic(auto)]

mod carried;
mod crew;
mod needed;
mod wanted;
mod worker;

pub use carried::Carried;
pub use crew::Crew;

#[cfg(test)]
mod tests;
