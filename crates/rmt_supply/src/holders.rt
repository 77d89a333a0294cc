//! What other replicas hold.
ghost use Rattle.std.specs.Prelude.{◌≡◌, ◌<◌, ◌≤◌, ◌^◌, false, IsTrue, IfOk, IfSome, MatchOption, length, slice_get};
ghost use Rattle.std.specs.Arc.{arc_value};
ghost use Rattle.std.specs.Option.{option_map};
ghost use Rattle.std.specs.declared.option.Option.TheVariants.{Some};
ghost use Rattle.rmt_part.specs.Lineages.{PartValue, IsPart};
ghost use Rattle.rmt_replica.specs.Replicas.{ReplicaView};
ghost use Rattle.rmt_supply.specs.PartSources.{staged_for, IsAccepted, AreOfOneTable, HasSmallParts, AreSmall, WaitsForBlock, IsGetFor, HoldsPart, HoldsNothing, HoldsSome, IsSent, IsFoundFor};
ghost use Rattle.rmt_supply.specs.TakenParts.{IsHeld, CanSend, SendsPart};

use crate::built::block_part;
use crate::found::Found;
use crate::held::Held;
use crate::staged::{is_staged, staged_block};
use rmt_compact::refetched;
use rmt_entries::Entry;
use rmt_format::encode;
use rmt_names::{PartName, block_name};
use rmt_part::Part;
use rmt_replica::{Replica, Supply};
use rmt_row::Seen;
use rmt_values::Schema;
use std::alloc::{AllocError, Global};
use std::sync::Arc;

/// The active part of a holder that covers the name and was made at a place below `len`; none where no such part is active.
fn part_within<'a>(
    holder: &'a Replica,
    name: &PartName,
    len: usize,
) -> Option<&'a Arc<Part, Global>>
    requires { name.now.min ≤ name.now.max }
    ensures { MatchOption result ((part : PartValue) → HoldsPart holder.now name.now len part → ⊥)
        (λ part. HoldsPart holder.now name.now len (arc_value part.now)) }
{
    let _standing = holder.copy();
    let Some(part) = holder.covering(name) else {
        return None;
    };
    if part.made().place() >= len {
        return None;
    }
    Some(part)
}

/// Takes what a holder has for the Get of a token out of the holder: its active part that covers the block's and was made at a
/// place below `len`, else the block that is staged there. None where it has neither. At an error no memory was left.
pub fn take_held(
    holder: &Replica,
    get: &Seen<Entry>,
    name: &PartName,
    len: usize,
) -> Result<Option<Held>, AllocError>
    requires { IsGetFor get.now name.now }
    ensures { IfOk result (IsHeld holder.now get.now name.now len) }
{
    if let Some(part) = part_within(holder, name, len) {
        let part = Arc::try_clone(part)?;
        return Ok(Some(Held::Part(part)));
    }
    let Some(block) = staged_block(holder, get)? else {
        return Ok(None);
    };
    let get = get.copy()?;
    Ok(Some(Held::Block { block, get }))
}

/// The part that another replica makes of a holder's: the holder's bytes are sent, and decoded there. At an error no memory was
/// left.
fn sent(alloc: Global, part: &Part) -> Result<Arc<Part, Global>, AllocError>
    requires { length part.now.body.rows < 2 ^ 32 }
    ensures { IfOk result (λ other. arc_value other ≡ part.now) }
{
    let bytes = encode(alloc, part.body(), part.schema())?;
    let other = refetched(alloc, part, &bytes)?;
    let shared = Arc::new(alloc, other)?;
    Ok(shared)
}

/// Sends what a holder has, as the bytes of a part: the part that another replica makes of them. At an error no memory was left,
/// and what was taken is gone.
pub fn send(
    alloc: Global,
    held: Held,
    schema: &Arc<Schema, Global>,
) -> Result<Arc<Part, Global>, AllocError>
    requires { CanSend (arc_value schema.now) held }
    ensures ok { IfOk result (λ part. SendsPart (arc_value schema.now) held (arc_value part)) }
    ensures part { IfOk result (λ part. IsPart (arc_value part)) }
{
    let part = match held {
        Held::Part(part) => part,
        Held::Block { block, get } => block_part(alloc, block, get, schema)?,
    };
    // What the type keeps is known where a field is read.
    let _name = part.name();
    let other = sent(alloc, &part)?;
    Ok(other)
}

/// What a holder sends for the Get of a token; none where it has nothing. At an error no memory was left.
fn held(
    alloc: Global,
    holder: &Replica,
    get: &Seen<Entry>,
    name: &PartName,
    len: usize,
    schema: &Arc<Schema, Global>,
) -> Result<Option<Arc<Part, Global>>, AllocError>
    requires get { IsGetFor get.now name.now }
    requires accepted { IfSome (staged_for holder.now get.now.value) (IsAccepted (arc_value schema.now) get.now.value) }
    requires small { HasSmallParts holder.now }
    ensures { IfOk result (λ part. IsSent (arc_value schema.now) holder.now get.now name.now len (option_map arc_value part)) }
{
    match take_held(holder, get, name, len)? {
        Some(held) => {
            let part = send(alloc, held, schema)?;
            Ok(Some(part))
        }
        None => Ok(None),
    }
}

/// Whether a holder has an active part that covers the block's and was made at a place below `len`, or the block of the token's
/// Get.
fn holds(holder: &Replica, get: &Seen<Entry>, name: &PartName, len: usize) -> bool
    requires get { IsGetFor get.now name.now }
    ensures some { IsTrue result → HoldsSome holder.now get.now name.now len }
    ensures nothing { result ≡ false → HoldsNothing holder.now get.now name.now len }
{
    match part_within(holder, name, len) {
        Some(_) => true,
        None => is_staged(holder, get),
    }
}

/// What does the Get at a place of a replica's copy, which waits and whose block isn't staged there: the part that its
/// lowest-numbered other live holder has. It is missing where no other live replica holds the block; where one does and the
/// replica may not fetch, none is sent. At an error no memory was left.
pub(crate) fn fetched_part(
    alloc: Global,
    replicas: &[Replica],
    at: usize,
    i: usize,
    schema: &Arc<Schema, Global>,
) -> Result<Found, AllocError>
    requires at { at < length replicas.now }
    requires table { AreOfOneTable replicas.now i }
    requires small { AreSmall replicas.now }
    requires waits { (x : ReplicaView) → slice_get replicas.now at ≡ Some x → (x.schema ≡ arc_value schema.now) × WaitsForBlock x i }
    ensures { IfOk result (λ found. (x : ReplicaView) → slice_get replicas.now at ≡ Some x → IsFoundFor replicas.now x i found) }
{
    let worker = &replicas[at];
    let copy = worker.copy();
    let get = copy.entry(i).unwrap();
    let Entry::Get {
        partition,
        number,
        ..
    } = get.value()
    else {
        unreachable!()
    };
    let name = block_name(*partition, *number);
    let len = copy.len();
    'holders: for (j, holder) in replicas.iter().enumerate() {
        if j == at || !holder.is_up() {
            continue;
        }
        let _standing = holder.copy();
        if !holds(holder, get, &name, len) {
            continue;
        }
        if !worker.fetches() {
            return Ok(Found::Stopped);
        }
        let part = held(alloc, holder, get, &name, len, schema)?.unwrap();
        return Ok(Found::Ready(Supply::Fetched(part)));
    }
    Ok(Found::Missing(name))
}
