use rmt_list::List;
use rmt_values::{Blob, Literal};

/// The rows of an INSERT.
#[derive(Debug, Drop)]
pub enum Offered {
    Values(List<List<Literal>>),
    /// Records of comma-separated values.
    Csv(Blob),
}
