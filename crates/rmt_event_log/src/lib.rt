//! The events of a table, each with its reply, stored in little memory.
#![tactic(auto)]

mod commands;
mod copies;
mod event_log;
mod reading;
mod sorting;
mod stored;

pub use commands::copy_command;
pub use event_log::EventLog;
