use rmt_names::PartName;
use rmt_reply::Refusal;

/// What became of the live parts of one partition.
#[derive(Drop)]
pub enum Optimized {
    /// It has this part alone.
    Name(PartName),
    /// Its parts weren't merged.
    Refused(Refusal),
}
