//! A table: its coordination tree and its log. Each call that changes it is one multi on the tree.
#![tactic(auto)]

mod allocate_error;
mod change_error;
mod choices;
mod commit_error;
mod counted;
mod entry_log;
mod laws;
mod layout;
mod lock;
mod merge_error;
mod mutate_error;
mod ops;
mod quorum;
mod quorum_error;
mod table_tree;

pub use allocate_error::AllocateError;
pub use change_error::ChangeError;
pub use choices::{are_mergeable, is_mutable};
pub use commit_error::CommitError;
pub use laws::{a_table_is_seen_as_it_is, each_call_is_seen_by_events};
pub use lock::Lock;
pub use merge_error::MergeError;
pub use mutate_error::MutateError;
pub use quorum::Quorum;
pub use table_tree::TableTree;
