//! Names of parts in order, of which no two share a number: a new one takes the place of those that it covers.
#![tactic(auto)]

mod name_set;
mod range;
mod replacement;
mod search;

pub use name_set::NameSet;
pub use range::Range;
pub use search::{before, is_after};
