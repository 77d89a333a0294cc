use rmt_values::Name;

/// How a CREATE divides its table's rows into partitions.
#[derive(Debug, Drop)]
pub enum PartitionRule {
    Column(Name),
    /// `tuple()`: not at all.
    Tuple,
    /// `intDiv` of a column by a number.
    Division(Name, u128),
}
