use rmt_block::Block;
use rmt_entries::Entry;
use rmt_list::List;
use rmt_names::PartName;
use rmt_part::Part;
use rmt_row::Seen;
use std::alloc::Global;
use std::sync::Arc;

/// What the entry at a place of a replica's copy needs, taken out of the replica: what is here is shared, and its token copied.
#[derive(Drop)]
pub enum Taken {
    /// No part: nothing is to do, or the entry is a drop.
    Nothing,
    /// The block that is staged for a Get.
    Block {
        block: Arc<Block, Global>,
        get: Seen<Entry>,
    },
    /// The sources of a Merge, in its order.
    Sources {
        sources: Vec<Arc<Part, Global>>,
        merge: Seen<Entry>,
    },
    /// The old part of a Mutate, and the tokens of all mutations up to its last, the oldest first.
    Old {
        old: Arc<Part, Global>,
        mutations: Arc<List<Seen<Entry>>, Global>,
        mutate: Seen<Entry>,
    },
    /// This part is missing: the Get's own, whose block isn't staged here, or the first source that isn't active.
    Missing(PartName),
}
