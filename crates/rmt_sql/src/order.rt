use rmt_list::List;
use rmt_values::Name;

/// The sorting key of a CREATE.
#[derive(Debug, Drop)]
pub enum Order {
    Column(Name),
    /// Columns in parentheses; none for `tuple()`.
    Names(List<Name>),
}
