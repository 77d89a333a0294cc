//! A table's log, and copies of its prefixes: the entries, what is live after them, and what made it. A copy's type keeps
//! that its log is lawful.
#![tactic(auto)]

mod copy;
mod last_drop;
mod mutation_list;
mod name_key;
mod neighbours;
mod number;
mod table_log;
mod update;

pub use copy::LogCopy;
pub use number::{number_among, number_in};
pub use table_log::TableLog;
