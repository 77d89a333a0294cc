ghost use Rattle.std.specs.Prelude.{◌≡◌, IfErr, IfOk};
ghost use Rattle.rmt_statement_model.specs.Reads.{waiting_part};
ghost use Rattle.rmt_readings.specs.QuorumParts.{AreInQuorum, LacksCover};

use rmt_names::PartName;
use rmt_partset::Snapshot;
use rmt_quorum::QuorumState;
use rmt_reply::Refusal;
use rmt_sequential::{has_cover, without};
use std::alloc::{AllocError, Global};

/// The part that waits for its quorum.
fn waiting_of(quorum: &QuorumState) -> Option<PartName>
    ensures { result ≡ waiting_part quorum.now }
{
    match quorum.pending() {
        Some(pending) => Some(pending.part()),
        None => None,
    }
}

/// Those of the parts that don't cover the one which waits for its quorum. Or gives the refusal, where none of them covers the last
/// part whose quorum was met.
///
/// At an error no memory was left.
pub fn parts_in_quorum(
    alloc: Global,
    quorum: &QuorumState,
    active: &Snapshot,
) -> Result<Result<Snapshot, Refusal>, AllocError>
    ensures found { IfOk result (λ found. IfOk found (AreInQuorum quorum.now active.now)) }
    ensures refused { IfOk result (λ found. IfErr found (LacksCover quorum.now active.now)) }
{
    let parts = without(alloc, active, &waiting_of(quorum))?;
    let Some(last) = quorum.last() else {
        return Ok(Ok(parts));
    };
    if !has_cover(&parts, &last) {
        return Ok(Err(Refusal::NotInQuorum(last)));
    }
    Ok(Ok(parts))
}
