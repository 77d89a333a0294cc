ghost use Rattle.std.specs.Prelude.{◌≡◌};
ghost use Rattle.rmt_values.specs.Aggregates.{
  is_checked_aggregate,
  has_aggregate as one_aggregates,
  is_grouping as puts_together,
};

use crate::checked::Checked;
use crate::checked_item::CheckedItem;
use rmt_list::List;

/// A question to a table of one schema.
#[derive(Debug, Drop)]
pub struct CheckedQuery {
    /// The select list.
    pub items: List<CheckedItem>,
    /// Which rows match; without one, all do.
    pub filter: Option<Checked>,
    /// The columns whose values form the groups. None of them: there are no groups.
    pub group: List<u16>,
}

impl CheckedQuery {
    /// Whether rows are put together: there is an aggregate or GROUP BY.
    pub fn is_grouping(&self) -> bool
        ensures { result ≡ puts_together is_checked_aggregate self.now.items self.now.group }
    {
        has_aggregate(self.items.as_slice()) || !self.group.as_slice().is_empty()
    }
}

/// Whether an item puts rows together.
fn has_aggregate(items: &[CheckedItem]) -> bool
    ensures { result ≡ one_aggregates is_checked_aggregate items.now }
{
    'items: for item in items {
        if item.is_aggregate() {
            return true;
        }
    }
    false
}
