//! A `Vec` and a `Box` that contracts see as what they hold, so that a tree of them is plain data.
#![tactic(auto)]

mod copies;
mod equals;
mod list;

pub use copies::Copies;
pub use equals::Equals;
pub use list::List;
pub use sqlite_items::Boxed;
