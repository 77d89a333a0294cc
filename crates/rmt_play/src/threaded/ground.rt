use crate::threaded::cast::Cast;
use rmt_workers::Carried;

/// What a round of statements leaves to the next one: the tables at rest.
#[derive(Drop)]
pub(crate) struct Ground {
    pub cast: Cast,
    pub carried: Carried,
}
