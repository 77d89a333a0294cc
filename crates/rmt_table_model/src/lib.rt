//! What a table keeps beside its log, and that each of its calls keeps the log lawful and the table in its tree.
#![tactic(auto)]

mod laws;

pub use laws::{a_new_table, an_entry_records_its_counts, each_call_keeps_a_table};
