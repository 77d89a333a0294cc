//! A queue of tickets for work in the background, and each worker's place at it.
#![tactic(auto)]

mod counted;
mod deal;
mod naming;
mod open;
mod queue;
mod rule;
mod served;
mod settle;
mod settle_error;
#[cfg(test)]
mod tests;
mod ticket;
mod tickets;
mod turn;
mod work;

pub use counted::CountedPass;
pub use naming::NamesQueue;
pub use queue::{BlankQueue, TicketQueue};
pub use served::Served;
pub use settle_error::SettleError;
pub use ticket::Ticket;
pub use tickets::Tickets;
pub use turn::Turn;
pub use work::Work;
