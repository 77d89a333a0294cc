//! Plays scripts: what each statement replies, what it changes, and the top call of the program.
#![tactic(auto)]

mod act;
mod answer;
mod clusters;
mod end;
mod engine;
mod form;
mod forms;
mod gatherer;
mod insert;
mod lanes;
mod mutation;
mod names;
mod partition;
mod parts;
mod player;
mod printing;
mod progress;
mod query;
mod refusing;
mod replicas;
mod round;
mod schema;
mod script;
mod script_end;
mod select;
mod status;
mod system;
mod task;
mod teller;
mod threaded;
mod top;
mod turns;
mod wait;
mod words;
mod written;

pub use end::End;
pub use printing::Printing;
pub use status::Status;
pub use top::{LONGEST, play_stepped, play_threaded, run};
