//! Blocks of rows, as an INSERT offers them, with their bytes and their ids.
#![tactic(auto)]

mod block;
mod block_id;
mod groups;
mod laws;
mod spelling;

pub use block::Block;
pub use block_id::{BlockId, id, id_text};
pub use groups::split;
pub use laws::{one_id_text, one_spelling, only_a_collision_is_unclear};
pub use spelling::bytes;
