use rmt_values::Value;

/// Bounds on the values of the first key column. A bound that is absent excludes nothing.
#[derive(Debug, Drop)]
pub struct KeyRange {
    /// The value that the column has to equal or exceed.
    pub low: Option<Value>,
    /// The value that the column has to equal or stay below.
    pub high: Option<Value>,
}
