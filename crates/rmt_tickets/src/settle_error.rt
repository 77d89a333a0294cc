/// Why a queue could not be settled.
#[derive(Clone, Copy, PartialEq, Eq, Debug, Drop)]
pub enum SettleError {
    /// Not all places at the queue were given.
    Missing,
    /// No memory was left for the tickets in the queue.
    OutOfMemory,
}
