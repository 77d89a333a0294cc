ghost use Rattle.std.specs.Prelude.{◌≡◌};
ghost use Rattle.rmt_values.specs.Aggregates.{is_aggregate as is_aggregate_of};

use crate::name::Name;

/// One item of a SELECT's list.
#[derive(Debug, Drop)]
pub enum Item {
    Column(Name),
    /// The number of rows.
    Count,
    Sum(Name),
    Min(Name),
    Max(Name),
}

impl Item {
    /// Whether it puts rows together.
    pub fn is_aggregate(&self) -> bool
        ensures { result ≡ is_aggregate_of self.now }
    {
        match self {
            Item::Column(_) => false,
            Item::Count | Item::Sum(_) | Item::Min(_) | Item::Max(_) => true,
        }
    }
}
