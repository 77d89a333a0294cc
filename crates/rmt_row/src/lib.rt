//! Cells that are each set once, in a row, and tokens of what they hold.
#![tactic(auto)]

mod append_row;
mod put_error;
mod row;
mod seen;
mod shown;

pub use append_row::AppendRow;
pub use put_error::PutError;
pub use row::Row;
pub use seen::{Seen, agree};

#[cfg(test)]
mod tests;
