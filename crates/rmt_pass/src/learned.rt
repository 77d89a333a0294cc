/// What is known at a replica once it is noted for the part that waits for its quorum.
#[derive(Clone, Copy, Debug)]
pub(crate) enum Learned {
    /// Nothing more than before.
    Nothing,
    /// Every place of the log.
    All,
    /// This place of the log.
    Place(usize),
}
