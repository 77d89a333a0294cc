//! What a replica executes: INSERT, SELECT, ALTER and the others, and the phrases that statements share: names,
//! literals and filters.
#![tactic(auto)]

mod acts;
mod alters;
mod filters;
mod inserts;
mod list_item;
mod operator;
mod parts;
mod selects;
mod services;

pub use acts::{any_act, is_row_act_next, row_act};
pub use filters::where_filter;
pub use list_item::{ListItem, listed};
pub use parts::{is_exactly, literal, name, names, names_in_parentheses, some_names};
