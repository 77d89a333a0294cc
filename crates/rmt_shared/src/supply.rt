//! What is done with no lock held: parts are built and sent of what was taken out of a replica.
ghost use Rattle.std.specs.Prelude.{◌≡◌, ◌↔◌, IsTrue, IfOk, IfSome};
ghost use Rattle.std.specs.Arc.{arc_value};
ghost use Rattle.std.specs.Option.{option_map};
ghost use Rattle.rmt_compact.specs.NewParts.{GetsBlock};
ghost use Rattle.rmt_part.specs.CellRows.{IsPartOfRow};
ghost use Rattle.rmt_replica.specs.Supplies.{supplied};
ghost use Rattle.rmt_supply.specs.TakenParts.{CanBuild, IsSupplyOf};
ghost use Rattle.rmt_shared.specs.SharedTables.{name_at};
ghost use Rattle.rmt_shared.specs.SharedReplicas.{IsMadeOf};
ghost use Rattle.rmt_shared.specs.ReplicaSupplies.{IsTakenFrom, IsHeldFrom, IsWhole, IsBuiltOf, IsWholeHeld, IsSentOf, HasFewRows};

use crate::naming::Naming;
use rmt_block::Block;
use rmt_entries::Entry;
use rmt_part::Part;
use rmt_replica::Supply;
use rmt_row::Seen;
use rmt_supply::{Held, Taken, build, send};
use rmt_values::Schema;
use std::alloc::{AllocError, Global};
use std::sync::Arc;

/// Whether the entry of a token is the Get of a block.
fn gets(get: &Seen<Entry>, block: &Block) -> bool
    ensures { IsTrue result ↔ GetsBlock get.now.value block.now }
{
    let Entry::Get {
        partition,
        digest,
        ..
    } = get.value()
    else {
        return false;
    };
    *partition == block.partition() && *digest == block.digest()
}

/// Whether no part is missing of what was taken, and a block is the one of its Get.
fn is_whole(taken: &Taken) -> bool
    ensures { IsTrue result ↔ IsWhole taken.now }
{
    match taken {
        Taken::Block { block, get } => gets(get, block),
        Taken::Missing(_) => false,
        Taken::Nothing | Taken::Sources { .. } | Taken::Old { .. } => true,
    }
}

/// Whether a block that was taken is the one of its Get.
fn is_whole_held(held: &Held) -> bool
    ensures { IsTrue result ↔ IsWholeHeld held.now }
{
    match held {
        Held::Part(_) => true,
        Held::Block { block, get } => gets(get, block),
    }
}

/// Whether a part that was taken has few enough rows to be sent.
fn has_few_rows(held: &Held) -> bool
    ensures { IsTrue result ↔ HasFewRows held.now }
{
    match held {
        Held::Part(part) => u32::try_from(part.body().rows()).is_ok(),
        Held::Block { .. } => true,
    }
}

/// The supply of a part that was built; no part where none is needed.
fn supply_of(part: Option<Arc<Part, Global>>) -> Supply
    ensures supply { IsSupplyOf (option_map arc_value part) result }
    ensures part { supplied result ≡ option_map arc_value part }
{
    match part {
        Some(part) => Supply::Built(part),
        None => Supply::Nothing,
    }
}

/// Builds the part of what was taken out of a replica of the table at a place, counted from 0, as it is supplied to that replica.
/// None where the part is missing, or another block was staged than the one of its Get: that counts as missing, since nobody
/// knows under a lock what another one staged there.
///
/// At an error no memory was left, and what was taken is gone.
pub fn build_supply<N: Naming>(
    alloc: Global,
    table: usize,
    taken: Taken,
    schema: &Arc<Schema, Global>,
) -> Result<Option<Supply>, AllocError>
    requires can_build { CanBuild taken }
    requires of { IsTakenFrom (name_at N.tables table) (N.offered table) taken }
    requires schema { arc_value schema.now ≡ (name_at N.tables table).schema }
    ensures ok { IfOk result (IsBuiltOf (arc_value schema.now) taken) }
    ensures schema { IfOk result (λ supply. IfSome supply (λ s. IfSome (supplied s)
        (λ part. part.schema ≡ (name_at N.tables table).schema))) }
    ensures row { IfOk result (λ supply. IfSome supply (λ s. IfSome (supplied s)
        (IsPartOfRow (name_at N.tables table).row))) }
    ensures offered { IfOk result (λ supply. IfSome supply (λ s. IfSome (supplied s)
        (IsMadeOf (N.offered table)))) }
{
    let _ = table;
    if !is_whole(&taken) {
        return Ok(None);
    }
    let part = build(alloc, taken, schema)?;
    Ok(Some(supply_of(part)))
}

/// Sends what was taken out of a replica of the table at a place, counted from 0, for a Get of another one: the part as it is
/// supplied to that one. None where another block was staged than the one of the Get.
///
/// At an error no memory was left, and what was taken is gone. No memory has the bytes of a part of 2^32 rows.
pub fn send_supply<N: Naming>(
    alloc: Global,
    table: usize,
    held: Held,
    schema: &Arc<Schema, Global>,
) -> Result<Option<Supply>, AllocError>
    requires of { IsHeldFrom (name_at N.tables table) (N.offered table) held }
    requires schema { arc_value schema.now ≡ (name_at N.tables table).schema }
    ensures ok { IfOk result (IsSentOf (arc_value schema.now) held) }
    ensures schema { IfOk result (λ supply. IfSome supply (λ s. IfSome (supplied s)
        (λ part. part.schema ≡ (name_at N.tables table).schema))) }
    ensures row { IfOk result (λ supply. IfSome supply (λ s. IfSome (supplied s)
        (IsPartOfRow (name_at N.tables table).row))) }
    ensures offered { IfOk result (λ supply. IfSome supply (λ s. IfSome (supplied s)
        (IsMadeOf (N.offered table)))) }
{
    let _ = table;
    if !is_whole_held(&held) {
        return Ok(None);
    }
    if !has_few_rows(&held) {
        return Err(AllocError);
    }
    let part = send(alloc, held, schema)?;
    Ok(Some(Supply::Fetched(part)))
}
