//! Which parts of a replica a client may read, for all that it knows.
#![tactic(auto)]

mod checked;
mod drops;
mod quorum;
mod readable;

pub use checked::is_checked;
pub use quorum::parts_in_quorum;
pub use readable::readable_parts;
