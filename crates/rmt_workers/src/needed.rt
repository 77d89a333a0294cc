use rmt_supply::Taken;
use rmt_values::Schema;
use std::alloc::Global;
use std::sync::Arc;

/// What an entry needs that a replica hasn't done: taken out of the replica, so that it is built with no lock held.
#[derive(Drop)]
pub(crate) struct Needed {
    /// The place of the entry in the log.
    pub place: usize,
    pub taken: Taken,
    /// The table's.
    pub schema: Arc<Schema, Global>,
}
