use rmt_list::List;
use rmt_names::PartName;
use rmt_reply::Refusal;

/// What became of the partitions of an OPTIMIZE: the one part of each, in their order, and why the next one has none.
#[derive(Drop)]
pub struct Optimization {
    pub names: List<PartName>,
    pub refused: Option<Refusal>,
}
