ghost use Rattle.std.specs.Prelude.{◌≡◌};
ghost use Rattle.rmt_replica.specs.declared.apply_error.ApplyError.TheVariants.{Memory};

use rmt_names::PartName;
use std::alloc::AllocError;

/// Why a replica didn't do an entry.
#[derive(Clone, Copy, Debug, PartialEq, Eq)]
pub enum ApplyError {
    /// The replica is down.
    Down,
    /// A part was supplied that another replica has, and the replica may not fetch. Allow it with `set_fetches`, or supply a
    /// part that was built.
    FetchesStopped,
    /// The entry makes this part, and no part was supplied that covers it and was made within the copy.
    NeedsPart(PartName),
    /// Out of memory.
    Memory,
}

impl From<AllocError> for ApplyError {
    ghost from_gives = { λ _ e. e ≡ Memory };

    fn from(_: AllocError) -> ApplyError {
        ApplyError::Memory
    }
}
