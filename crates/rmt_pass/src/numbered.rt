use rmt_names::PartName;
use rmt_reply::Refusal;
use rmt_table::Lock;

/// What became of a block that asked for a number.
#[derive(Drop)]
pub enum Numbered {
    /// It got the number that this lock holds.
    Taken(Lock),
    /// It was accepted before, and is in this part.
    Duplicate(PartName),
    /// It was refused.
    Refused(Refusal),
}
