//! Which parts a sequential SELECT reads.
#![tactic(auto)]

mod kept;

pub use kept::{has_cover, without};
