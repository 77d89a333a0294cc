//! Filters, commands and queries checked against a schema; filters and commands put to rows.
#![tactic(auto)]

mod changes;
mod check_error;
mod checks;
mod deletes;
mod group_names;
mod keeps;
mod keeps_at;
mod mutation_error;
mod mutations;
mod new_cells;
mod queries;
mod rows_after;
mod sets;
mod updates;

pub use changes::apply;
pub use check_error::CheckError;
pub use checks::check;
pub use keeps::holds;
pub use keeps_at::holds_in;
pub use mutation_error::MutationError;
pub use mutations::check_mutation;
pub use queries::check_query;
pub use rows_after::apply_to;
