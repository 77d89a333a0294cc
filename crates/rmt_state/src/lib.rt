//! A table with its coordination tree, and its replicas: the calls that events make on them, without the events.
#![tactic(auto)]

mod causes;
mod state;

pub use state::State;
