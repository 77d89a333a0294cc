//! Paths of znodes: their names, their texts and their order.
#![tactic(auto)]

mod digits;
pub mod laws;
mod path;
mod path_error;
mod place;
mod segment;

pub use digits::ten_digits;
pub use path::Path;
pub use path_error::PathError;
pub use place::Place;
pub use segment::Segment;
