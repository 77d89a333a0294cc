use rmt_reply::Refusal;

/// What became of the first part that waits for a mutation.
#[derive(Drop)]
pub enum Mutated {
    /// It was mutated.
    Part,
    /// No part waits.
    NonePending,
    /// It waits still.
    Refused(Refusal),
}
