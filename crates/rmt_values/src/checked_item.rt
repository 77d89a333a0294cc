ghost use Rattle.std.specs.Prelude.{◌≡◌};
ghost use Rattle.rmt_values.specs.Aggregates.{is_checked_aggregate};

/// One item of a SELECT's list. Columns are places, counted from 0.
#[derive(Clone, Copy, Debug, PartialEq, Eq)]
pub enum CheckedItem {
    Column(u16),
    /// The number of rows.
    Count,
    Sum(u16),
    Min(u16),
    Max(u16),
}

impl CheckedItem {
    /// Whether it puts rows together.
    pub fn is_aggregate(&self) -> bool
        ensures { result ≡ is_checked_aggregate self.now }
    {
        match self {
            CheckedItem::Column(_) => false,
            CheckedItem::Count | CheckedItem::Sum(_) | CheckedItem::Min(_) | CheckedItem::Max(_) =>
                true,
        }
    }
}
