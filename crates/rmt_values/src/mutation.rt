use crate::filter::Filter;
use crate::name::Name;
use crate::right::Right;
use rmt_list::List;

/// A command that changes the rows which its filter keeps, as a statement writes it.
#[derive(Debug, Drop)]
pub enum Mutation {
    /// Sets each of these columns.
    Update {
        sets: List<(Name, Right)>,
        filter: Filter,
    },
    Delete {
        filter: Filter,
    },
}
