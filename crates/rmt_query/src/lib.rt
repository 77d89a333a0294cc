//! Answers queries over the rows of parts, and counts the granules that they read.
#![tactic(auto)]

mod answers;
mod cells;
mod distinct;
mod granule_counts;
mod joined_cells;
mod laws;
mod matches;
mod row_values;
mod runs;
mod sums;
mod totals;
mod tuple;

pub use answers::answer;
pub use granule_counts::explain;
pub use laws::same_bags_have_one_answer;
pub use tuple::Tuple;
