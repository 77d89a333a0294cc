//! Parts of a table, with what each was made from. The type keeps that a part's data is the content of its name.
#![tactic(auto)]

mod accepted;
pub mod laws;
mod part;

pub use accepted::Accepted;
pub use part::Part;
