/// What of the replies is written.
#[derive(Clone, Copy, Debug, PartialEq, Eq)]
pub enum Printing {
    /// Each reply, before the next statement begins.
    Full,
    /// The summary of all replies, once the last statement was played.
    Summary,
}
