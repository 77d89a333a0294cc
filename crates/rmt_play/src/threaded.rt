//! A script among workers: rounds of statements, each beside threads that merge, mutate and fetch. Tables are made between the
//! rounds, when no thread is left.

mod among;
mod beside;
mod cast;
mod client;
mod ground;
mod made;
mod making;
mod paused;
mod play;
mod round;
mod span;
mod threaded_end;
mod workshop;

pub(crate) use play::play;
pub(crate) use threaded_end::ThreadedEnd;
