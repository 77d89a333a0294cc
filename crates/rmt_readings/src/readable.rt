ghost use Rattle.std.specs.Prelude.{◌≡◌, ◌<◌, ◌^◌, length, IfOk, IsTrue, MatchOption};
ghost use Rattle.rmt_model.specs.Words.{Each};
ghost use Rattle.rmt_history.specs.Copies.{IsLogOf};
ghost use Rattle.rmt_replica.specs.Replicas.{copy_of};
ghost use Rattle.rmt_known.specs.KnownTables.{client_of};
ghost use Rattle.rmt_readings.specs.Readable.{IsReadable, IsUnread};

use crate::checked::is_checked;
use rmt_known::KnownTable;
use rmt_partset::{NamedPart, Snapshot};
use rmt_replica::{Replica, ReplicaError};
use rmt_table::TableTree;
use std::alloc::{AllocError, Global};

/// Whether each part has few enough rows to have bytes.
fn have_few_rows(parts: &[NamedPart]) -> bool
    ensures { IsTrue result → Each (λ part. length part.rows.rows < 2 ^ 32) parts.now }
{
    'parts: for part in parts {
        if u32::try_from(part.data().rows()).is_err() {
            return false;
        }
    }
    true
}

/// The active parts of a replica, where a client that knows its table's whole log may read them; None where the replica isn't as
/// the client knows it.
///
/// At an error no memory was left: none has the bytes of a part of 2^32 rows.
pub fn readable_parts(
    alloc: Global,
    known: &KnownTable,
    tree: &TableTree,
    replica: &Replica,
) -> Result<Option<Snapshot>, AllocError>
    requires schema { replica.now.schema ≡ tree.now.schema }
    requires row { IsLogOf tree.now.row (copy_of replica.now) }
    requires log { known.now.log ≡ tree.now.log }
    ensures { IfOk result (λ parts. MatchOption parts
        (IsUnread (client_of known.now) tree.now.log replica.now)
        (IsReadable (client_of known.now) replica.now)) }
{
    if !tree.meet(replica.copy()) {
        return Ok(None);
    }
    let parts = match replica.snapshot(alloc) {
        Ok(parts) => parts,
        Err(ReplicaError::Down) => return Ok(None),
        Err(ReplicaError::Memory) => return Err(AllocError),
    };
    if !have_few_rows(parts.parts()) {
        return Err(AllocError);
    }
    if !is_checked(known, replica, &parts) {
        return Ok(None);
    }
    Ok(Some(parts))
}
