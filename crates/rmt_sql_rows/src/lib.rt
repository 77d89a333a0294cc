//! The rows of an INSERT.
#![tactic(auto)]

mod cells;
mod insert;
mod names;
mod records;
mod rows_error;
mod tuples;
mod values;

pub use insert::rows_of;
pub use names::{names_refusal, places_of};
pub use records::rows_of_data;
pub use rows_error::RowsError;
pub use tuples::rows_of_tuples;
pub use values::{absent, field_value};
