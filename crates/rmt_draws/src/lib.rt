//! Background events that a generator draws, each from the state before it.
#![tactic(auto)]

mod generator;
mod turns;

pub use turns::turn;
