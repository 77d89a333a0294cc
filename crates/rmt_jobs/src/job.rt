use rmt_list::List;
use rmt_names::PartName;

/// What a background worker does next at a replica.
#[derive(Drop)]
pub enum Job {
    /// Nothing: the replica is down, or there is nothing to do.
    Idle,
    /// The replica copies the rest of the log.
    Pull,
    /// The replica does the entry at this place of its copy.
    Apply(u32),
    /// A merge of these neighbours enters the log.
    Merge(List<PartName>),
    /// A mutate of a part, up to the mutation at a place, enters the log.
    Mutate { old: PartName, upto: u32 },
}
