//! The granules of a part that a filter has to read, by its bounds on the first key column.
#![tactic(auto)]

mod bounds;
mod key_range;
mod selection;

pub use bounds::range_of;
pub use key_range::KeyRange;
pub use selection::select;
