use crate::round::Round;
use crate::threaded::cast::Cast;
use rmt_pass::Pass;
use rmt_shared::Naming;

/// A round that has ended, with no thread left beside its client: what the client knows of the tables, unless an act stopped halfway.
#[derive(Drop)]
pub(crate) struct Paused<N: Naming> {
    pub round: Round,
    pub cast: Cast,
    pub pass: Option<Pass<N>>,
}
