ghost use Rattle.std.specs.Prelude.{◌≡◌, ◌↔◌, IsTrue};

use crate::checked::Checked;
use crate::checked_right::CheckedRight;
use rmt_list::{Equals, List};

/// A command that changes the rows which its filter keeps.
#[derive(Debug, Drop)]
pub enum CheckedMutation {
    /// Sets each of these columns.
    Update {
        sets: List<(u16, CheckedRight)>,
        filter: Checked,
    },
    Delete {
        filter: Checked,
    },
}

impl Equals for CheckedMutation {
    fn equals(&self, other: &CheckedMutation) -> bool
        ensures fact { IsTrue result ↔ (self.now ≡ other.now) }
    {
        match (self, other) {
            (
                CheckedMutation::Update { sets, filter },
                CheckedMutation::Update {
                    sets: other_sets,
                    filter: other_filter,
                },
            ) => sets.equals(other_sets) && filter.equals(other_filter),
            (
                CheckedMutation::Delete { filter },
                CheckedMutation::Delete {
                    filter: other_filter,
                },
            ) => filter.equals(other_filter),
            _ => false,
        }
    }
}
