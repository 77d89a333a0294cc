use rmt_names::PartName;

/// The quorum of a table's inserts, at one moment.
#[derive(Clone, Copy, Debug, PartialEq, Eq)]
pub struct Quorum {
    /// The part that waits for its quorum.
    pub pending: Option<PartName>,
    /// How many replicas have noted that part; 0 where none waits.
    pub have: u32,
    /// How many replicas it needs; 0 where none waits.
    pub need: u32,
    /// The last part whose quorum was met.
    pub last: Option<PartName>,
}
