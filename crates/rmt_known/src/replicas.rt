//! What is kept for each replica, by its number, the first one first.
ghost use Rattle.std.specs.Prelude.{◌≡◌, ◌≤◌, [], true, length, replicate, IfOk, MatchOption};
ghost use Rattle.rmt_known.specs.KnownTables.{fetching_at, marks_at};

use rmt_queue::Queue;
use rmt_values::ReplicaId;
use std::alloc::{AllocError, Global};

/// Whether a replica may fetch; one that isn't there may.
pub(crate) fn fetches_of(fetching: &[bool], replica: ReplicaId) -> bool
    ensures { result ≡ fetching_at fetching.now replica }
{
    if replica == 0 {
        return true;
    }
    let place = usize::from(replica) - 1;
    if place >= fetching.len() {
        return true;
    }
    fetching[place]
}

/// The marks of a replica; none of one that isn't there.
pub(crate) fn marks_of(marks: &[Queue], replica: ReplicaId) -> Option<&Queue>
    ensures { MatchOption result (marks_at marks.now replica ≡ []) (λ own. marks_at marks.now replica ≡ own.now) }
{
    if replica == 0 {
        return None;
    }
    marks.get(usize::from(replica) - 1)
}

/// Marks for so many replicas, at which no place is known. At an error no memory was left.
pub(crate) fn new_marks(alloc: Global, replicas: usize) -> Result<Vec<Queue>, AllocError>
    ensures { IfOk result (λ marks. marks.items ≡ replicate replicas []) }
{
    let mut marks = Vec::with_capacity(alloc, replicas)?;
    'replicas: for _ in 0..replicas {
        marks.push(Queue::new(alloc))?;
    }
    Ok(marks)
}
