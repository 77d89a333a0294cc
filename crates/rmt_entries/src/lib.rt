//! The entries of a table's log, and their bytes, both ways.
#![tactic(auto)]

mod block_number;
mod command;
mod decode;
mod encode;
mod encoded;
mod entry;
mod entry_error;
mod filter;
mod laws;
mod name;
mod right;

pub use decode::entry_of;
pub use encode::bytes;
pub use entry::{Entry, result_of};
pub use entry_error::EntryError;
pub use laws::one_spelling;
