ghost use Rattle.std.specs.Prelude.{◌≡◌};
ghost use Rattle.std.specs.Option.{option_map};
ghost use Rattle.std.specs.Arc.{arc_value};
ghost use Rattle.rmt_replica.specs.Supplies.{supplied, is_fetched};

use rmt_part::Part;
use std::alloc::Global;
use std::sync::Arc;

/// What a replica is given to do an entry with.
#[derive(Drop)]
pub enum Supply {
    /// No part.
    Nothing,
    /// A part that was built from what the replica has itself.
    Built(Arc<Part, Global>),
    /// A part that another replica has.
    Fetched(Arc<Part, Global>),
}

impl Supply {
    /// Whether the part is one that another replica has.
    pub(crate) fn is_fetched(&self) -> bool
        ensures { result ≡ is_fetched self.now }
    {
        match self {
            Supply::Nothing | Supply::Built(_) => false,
            Supply::Fetched(_) => true,
        }
    }

    /// The part that is supplied.
    pub(crate) fn part(self) -> Option<Arc<Part, Global>>
        ensures { option_map arc_value result ≡ supplied self }
    {
        match self {
            Supply::Nothing => None,
            Supply::Built(part) | Supply::Fetched(part) => Some(part),
        }
    }
}
