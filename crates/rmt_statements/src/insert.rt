use crate::offered::Offered;
use rmt_list::List;
use rmt_values::Name;

/// An INSERT.
#[derive(Debug, Drop)]
pub struct Insert {
    pub table: Name,
    /// The columns that the rows have values for; without them, all in the schema's order.
    pub columns: Option<List<Name>>,
    /// The number of `insert_quorum`.
    pub quorum: Option<u128>,
    pub rows: Offered,
}
