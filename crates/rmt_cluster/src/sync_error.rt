ghost use Rattle.std.specs.Prelude.{◌≡◌};
ghost use Rattle.rmt_cluster.specs.declared.sync_error.SyncError.TheVariants.{Memory};

use rmt_names::PartName;
use rmt_values::ReplicaId;
use std::alloc::AllocError;

/// Why a replica wasn't brought to the whole log.
#[derive(Clone, Copy, Debug, PartialEq, Eq)]
pub enum SyncError {
    /// The replica is down.
    ReplicaDown,
    /// Its fetches are stopped: allow them, and sync again.
    FetchesStopped,
    /// It waits for this part, which no live replica holds. The part's source, this replica, is down: restart it.
    NoSource { part: PartName, replica: ReplicaId },
    /// Out of memory.
    Memory,
}

impl From<AllocError> for SyncError {
    ghost from_gives = { λ _ e. e ≡ Memory };

    fn from(_: AllocError) -> SyncError {
        SyncError::Memory
    }
}
