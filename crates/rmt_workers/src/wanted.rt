use rmt_entries::Entry;
use rmt_names::PartName;
use rmt_row::Seen;
use rmt_values::Schema;
use std::alloc::Global;
use std::sync::Arc;

/// A Get that a replica can't do of what it has: what another one is asked for.
#[derive(Drop)]
pub(crate) struct Wanted {
    /// The place of the Get in the log.
    pub place: usize,
    pub get: Seen<Entry>,
    /// The part that the Get makes.
    pub name: PartName,
    /// How long the replica's copy of the log is: a part that was made past it is of no use there.
    pub len: usize,
    /// The table's.
    pub schema: Arc<Schema, Global>,
}
