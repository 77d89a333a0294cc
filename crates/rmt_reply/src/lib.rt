//! The replies of statements, and the bytes that they are printed as.
#![tactic(auto)]

mod checks;
mod commands;
mod counts;
mod granules;
mod line;
mod piece;
mod records;
mod refusal;
mod refusals;
mod replies;
mod summaries;
mod texts;

pub use granules::Granules;
pub use line::Line;
pub use piece::Piece;
pub use refusal::Refusal;
pub use replies::{print, print_line};
pub use summaries::{refused_in, summary};
