use rmt_block::Block;
use rmt_entries::Entry;
use rmt_part::Part;
use rmt_row::Seen;
use std::alloc::Global;
use std::sync::Arc;

/// What a holder has for a Get, taken out of it: what is there is shared, and the token copied.
#[derive(Drop)]
pub enum Held {
    /// An active part that covers the Get's.
    Part(Arc<Part, Global>),
    /// The Get's block, which is staged there.
    Block {
        block: Arc<Block, Global>,
        get: Seen<Entry>,
    },
}
