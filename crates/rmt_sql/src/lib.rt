//! The language of scripts: the forms of statements, and how a script is read statement by statement.
#![tactic(auto)]

mod creates;
mod laws;
mod order;
mod parallel;
mod parsed;
mod partition_rule;
mod script;
mod setting_name;
mod settings;
mod statements;

pub use laws::{places_are_read_in_one_way, statements_are_read_exactly};
pub use parsed::Parsed;
pub use rmt_statements::{Act, Insert, Mode, Offered, PartitionWord, Sent, Statement};
pub use script::next_statement;
