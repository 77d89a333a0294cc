ghost use Rattle.std.specs.Prelude.{◌≡◌};
ghost use Rattle.rmt_replica.specs.declared.replica_error.ReplicaError.TheVariants.{Memory};

use std::alloc::AllocError;

/// Why a call on a replica did nothing.
#[derive(Clone, Copy, Debug, PartialEq, Eq)]
pub enum ReplicaError {
    /// The replica is down.
    Down,
    /// Out of memory.
    Memory,
}

impl From<AllocError> for ReplicaError {
    ghost from_gives = { λ _ e. e ≡ Memory };

    fn from(_: AllocError) -> ReplicaError {
        ReplicaError::Memory
    }
}
