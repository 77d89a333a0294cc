//! Names of parts.
#![tactic(auto)]

mod fields;
mod laws;
mod merging;
mod name;

pub use fields::partition_of_text;
pub use laws::one_spelling;
pub use merging::merged;
pub use name::{
    PartName, PartitionId, block_name, covers, data_version, parse, partition_text, text,
};
