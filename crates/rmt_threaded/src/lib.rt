//! A table among workers, as what executes acts.
#![tactic(auto)]

mod access;
mod acting;
mod offers;
mod threaded_table;

pub use offers::Offers;
pub use threaded_table::ThreadedTable;
