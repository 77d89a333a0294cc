//! A table on plain lists: what it accepted, in order, and the rows that this leaves. It is slow, and tests alone run it.
#![tactic(auto)]

mod accepted;
mod plain_table;
mod rows_left;

pub use accepted::Accepted;
pub use plain_table::PlainTable;
