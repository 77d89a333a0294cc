use rmt_names::PartName;

/// What an entry waits for.
#[derive(Clone, Copy, Debug, PartialEq, Eq)]
pub enum Why {
    /// For nothing: it is done, is a Mutation, or an active part covers its result.
    Covered,
    /// For nothing: a later drop takes its result away.
    Dropped,
    /// For nothing that isn't here: it is a drop, its block is staged, or its sources are active.
    Ready,
    /// For this part: the block that isn't staged, or the first source that isn't active.
    NeedsPart(PartName),
}
