//! The znodes of a table's tree by what they stand for, their paths, and what operations on them do.
#![tactic(auto)]

mod branch;
mod laws;
mod leaves;
mod ranges;
mod sequence;
mod znode;

pub use laws::{an_operation_changes_its_znode, one_path};
pub use ranges::{is_id, is_partition};
pub use sequence::{entry_path, lock_path, order_path};
pub use znode::Znode;
