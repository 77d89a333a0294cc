//! Where the part that an entry of the log is done with comes from.
#![tactic(auto)]

mod built;
mod found;
mod held;
mod holders;
mod own_parts;
mod search;
mod staged;
mod taken;

pub use built::build;
pub use found::Found;
pub use held::Held;
pub use holders::{send, take_held};
pub use own_parts::take;
pub use search::find;
pub use taken::Taken;
