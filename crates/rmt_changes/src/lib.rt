//! Rows put through the commands of a log's mutations, and commands that an entry of the log can hold.
#![tactic(auto)]

mod due;
mod held_rows;
mod laws;
mod ranges;
mod rows;

pub use due::{due_mutations, is_pending};
pub use held_rows::changed_rows;
pub use laws::keys_stay;
pub use ranges::range_of_command;
pub use rows::pending_row;
