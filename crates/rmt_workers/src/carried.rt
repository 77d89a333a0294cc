use rmt_known::KnownTable;
use rmt_state::State;

/// Tables at rest with their replicas, and what the client knows of them: what one crew leaves to the next.
#[derive(Drop)]
pub struct Carried {
    /// The tables, each with its replicas, in the order in which they were created.
    pub states: Vec<State>,
    /// What the client knows of each of them.
    pub known: Vec<KnownTable>,
    /// Which replicas are up, the first one first.
    pub up: Vec<bool>,
}
