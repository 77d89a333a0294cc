//! The replicas that have noted a part.
ghost use Rattle.std.specs.Prelude.{◌≡◌, ◌≢◌, ◌<◌, ◌≤◌, ℕ, length, get_or, true, false, IfOk};
ghost use Rattle.rmt_model.specs.Words.{Has};
ghost use Rattle.rmt_model.specs.Quorum.{noted_with};

use rmt_values::ReplicaId;
use std::alloc::{AllocError, Global};

/// The first place among the replicas whose number isn't below this one; past all of them where there is none.
fn place(noted: &[ReplicaId], replica: ReplicaId) -> usize
    ensures within { result ≤ length noted.now }
    ensures below { (i : ℕ) → i < result → get_or noted.now i 0 < replica }
    ensures at { result < length noted.now → replica ≤ get_or noted.now result 0 }
{
    let mut at = 0;
    'places: while at < noted.len() {
        if noted[at] >= replica {
            return at;
        }
        at += 1;
    }
    at
}

/// Whether the replica stands at a place.
fn stands_at(noted: &[ReplicaId], at: usize, replica: ReplicaId) -> bool
    ensures there { result ≡ true → (at < length noted.now) × (get_or noted.now at 0 ≡ replica) }
    ensures not_there { result ≡ false → at < length noted.now → get_or noted.now at 0 ≢ replica }
{
    if at < noted.len() {
        return noted[at] == replica;
    }
    false
}

/// The replicas with one more at its place. At an error no memory was left.
pub(crate) fn with_replica(
    alloc: Global,
    noted: &[ReplicaId],
    replica: ReplicaId,
) -> Result<Vec<ReplicaId>, AllocError>
    ensures { IfOk result (λ all. all.items ≡ noted_with replica noted.now) }
{
    let at = place(noted, replica);
    let there = stands_at(noted, at, replica);
    let mut all = Vec::from_slice(alloc, noted)?;
    if there {
        return Ok(all);
    }
    all.insert(at, replica)?;
    Ok(all)
}

/// Whether a replica is among the others.
pub(crate) fn has(noted: &[ReplicaId], replica: ReplicaId) -> bool
    ensures there { result ≡ true → Has noted.now replica }
    ensures not_there { result ≡ false → Has noted.now replica → ⊥ }
{
    'others: for other in noted {
        if *other == replica {
            return true;
        }
    }
    false
}
