use rmt_names::PartName;

/// What is kept beside the id of a block.
#[derive(Clone, Copy, Debug)]
pub(crate) struct KeptBlock {
    /// The part that the block got.
    pub part: PartName,
    /// Its place in the order of acceptance, counted from 0.
    pub number: u32,
}
