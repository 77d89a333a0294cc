use rmt_values::Limit;

/// What a commit came to.
#[derive(Clone, Copy, Debug)]
pub(crate) enum Committed {
    /// The block is accepted by the entry at this place.
    Entry(u32),
    /// It would pass this limit.
    Full { limit: Limit, value: u64 },
}
