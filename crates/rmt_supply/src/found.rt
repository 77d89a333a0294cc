use rmt_names::PartName;
use rmt_replica::Supply;

/// What an entry of a replica's copy can be done with.
#[derive(Drop)]
pub enum Found {
    /// This does it.
    Ready(Supply),
    /// Another live replica holds the Get's block, and this one may not fetch it.
    Stopped,
    /// This part is missing: the Get's own, which no live replica holds, or the first source that isn't active.
    Missing(PartName),
}
