//! A part's rows, column by column, in granules, with a mark for each granule.
#![tactic(auto)]

mod index;
mod merge;
mod order;
mod part_data;
mod place;
mod places;

pub use merge::merged;
pub use order::{all_fit, from_unsorted_rows};
pub use part_data::{PartData, from_rows};
