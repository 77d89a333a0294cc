//! Parts made of a block, of other parts, of a part and its pending mutations, and of the bytes that another replica sent.
#![tactic(auto)]

mod block_part;
mod fetched_part;
mod gathered;
mod merged_part;
mod mutated_part;
mod name;
mod pending;

pub use block_part::from_block;
pub use fetched_part::refetched;
pub use merged_part::merge;
pub use mutated_part::mutate;
