//! The quorum that a client finds beside the one that it knows.
ghost use Rattle.std.specs.Prelude.{◌≡◌, ◌↔◌, ℕ, IsTrue, IfOk, MatchOption};
ghost use Rattle.std.specs.declared.option.Option.TheVariants.{Some, None};
ghost use Rattle.rmt_model.specs.Words.{Has, Each};
ghost use Rattle.rmt_model.specs.Quorum.{Quorum};
ghost use Rattle.rmt_clients.specs.Clients.{GoesOnFrom};

use rmt_quorum::{PendingPart, QuorumState};
use rmt_values::ReplicaId;
use std::alloc::{AllocError, Global};

/// Whether each of these replicas has noted the part.
fn have_noted(found: &PendingPart, noted: &[ReplicaId]) -> bool
    ensures { IsTrue result ↔ Each (Has found.now.noted) noted.now }
{
    'replicas: for replica in noted {
        if !found.has_noted(*replica) {
            return false;
        }
    }
    true
}

/// Whether it is the same part that waits still, and whoever had noted it has.
fn waits_still(known: &PendingPart, found: &PendingPart) -> bool
    ensures { IsTrue result ↔ ((found.now.part ≡ known.now.part) × (found.now.need ≡ known.now.need) × Each (Has found.now.noted) known.now.noted) }
{
    found.part() == known.part() && found.need() == known.need() && have_noted(found, known.noted())
}

/// Whether the quorum that is found may have come of notes from the one that is known.
pub(crate) fn goes_on(known: &QuorumState, found: &QuorumState) -> bool
    ensures { IsTrue result ↔ GoesOnFrom known.now.pending known.now.last found.now.pending found.now.last }
{
    match (known.pending(), found.pending()) {
        (None, None) => found.last() == known.last(),
        (None, Some(_)) => false,
        (Some(known_part), None) => found.last() == Some(known_part.part()),
        (Some(known_part), Some(found_part)) => {
            waits_still(known_part, found_part) && found.last() == known.last()
        }
    }
}

/// Whether the two are the same.
fn are_same(a: &PendingPart, b: &PendingPart) -> bool
    ensures { IsTrue result → a.now ≡ b.now }
{
    a.part() == b.part() && a.need() == b.need() && a.noted() == b.noted()
}

/// Whether the two quorums are the same.
fn is_unchanged(known: &QuorumState, found: &QuorumState) -> bool
    ensures { IsTrue result → known.now ≡ found.now }
{
    if known.last() != found.last() {
        return false;
    }
    match (known.pending(), found.pending()) {
        (None, None) => true,
        (Some(known_part), Some(found_part)) => are_same(known_part, found_part),
        _ => false,
    }
}

/// Returns a copy of the quorum that is found where it differs from the one that is known. At an error no memory was left.
pub(crate) fn newer(
    alloc: Global,
    known: &QuorumState,
    found: &QuorumState,
) -> Result<Option<QuorumState>, AllocError>
    ensures { IfOk result (λ copy. MatchOption copy (known.now ≡ found.now) (λ quorum. quorum ≡ found.now)) }
{
    if is_unchanged(known, found) {
        return Ok(None);
    }
    let copy = found.copy(alloc)?;
    Ok(Some(copy))
}
