ghost use Rattle.std.specs.Prelude.{◌≡◌};
ghost use Rattle.rmt_values.specs.Aggregates.{
  is_aggregate,
  has_aggregate as one_aggregates,
  is_grouping as puts_together,
};

use crate::filter::Filter;
use crate::item::Item;
use crate::name::Name;
use rmt_list::List;

/// A question to a table, as a statement writes it.
#[derive(Debug, Drop)]
pub struct Query {
    /// The select list. No items mean all columns, in the schema's order.
    pub items: List<Item>,
    /// Which rows match; without one, all do.
    pub filter: Option<Filter>,
    /// The columns whose values form the groups. None of them: there are no groups.
    pub group: List<Name>,
}

impl Query {
    /// Whether rows are put together: there is an aggregate or GROUP BY.
    pub fn is_grouping(&self) -> bool
        ensures { result ≡ puts_together is_aggregate self.now.items self.now.group }
    {
        has_aggregate(self.items.as_slice()) || !self.group.as_slice().is_empty()
    }
}

/// Whether an item puts rows together.
fn has_aggregate(items: &[Item]) -> bool
    ensures { result ≡ one_aggregates is_aggregate items.now }
{
    'items: for item in items {
        if item.is_aggregate() {
            return true;
        }
    }
    false
}
