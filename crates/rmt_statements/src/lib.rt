//! Statements of a script as types: what the grammar reads, and what is played; and which partition a word names.
#![tactic(auto)]

mod act;
mod insert;
mod mode;
mod offered;
mod partition_word;
mod sent;
mod statement;

pub use act::Act;
pub use insert::Insert;
pub use mode::Mode;
pub use offered::Offered;
pub use partition_word::PartitionWord;
pub use sent::Sent;
pub use statement::Statement;
