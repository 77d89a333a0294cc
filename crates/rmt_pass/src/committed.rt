use rmt_values::Limit;

/// What became of a block that had its number.
#[derive(Clone, Copy, Debug)]
pub enum Committed {
    /// Its Get is at this place of the log.
    Entry(usize),
    /// There was no room for it: this limit would be passed, whose count is this.
    Full { limit: Limit, value: u64 },
    /// The lock of its number was gone.
    LockGone,
}
