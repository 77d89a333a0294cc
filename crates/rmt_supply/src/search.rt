//! The search for what does an entry.
ghost use Rattle.std.specs.Prelude.{◌≡◌, ◌<◌, IfOk, length, slice_get};
ghost use Rattle.std.specs.Option.{option_map};
ghost use Rattle.std.specs.Arc.{arc_value};
ghost use Rattle.std.specs.declared.option.Option.TheVariants.{Some};
ghost use Rattle.rmt_replica.specs.Replicas.{ReplicaView};
ghost use Rattle.rmt_supply.specs.PartSources.{AreOfOneTable, AreSmall, IsFoundFor};
ghost use Rattle.rmt_supply.specs.TakenParts.{IsSupplyOf};

use crate::built::build;
use crate::found::Found;
use crate::holders::fetched_part;
use crate::own_parts::take;
use crate::taken::Taken;
use rmt_entries::Entry;
use rmt_part::Part;
use rmt_replica::{Replica, Supply};
use rmt_values::Schema;
use std::alloc::{AllocError, Global};
use std::sync::Arc;

/// The supply of a part that was built; no part where none is needed.
fn supply(part: Option<Arc<Part, Global>>) -> Supply
    ensures { IsSupplyOf (option_map arc_value part) result }
{
    match part {
        Some(part) => Supply::Built(part),
        None => Supply::Nothing,
    }
}

/// Looks for what does the entry at a place of a replica's copy: nothing is needed for a drop, and where nothing is to do; else a
/// part of what the replica has itself, or for a Get one of the lowest-numbered other live replica that holds its block. Where a
/// replica holds it that this one may not fetch from, the answer is `Stopped`; where none does, it is missing. The replica stands
/// at `at` among all of its table, in the order of their numbers.
///
/// At an error no memory was left.
pub fn find(
    alloc: Global,
    replicas: &[Replica],
    at: usize,
    i: usize,
    schema: &Arc<Schema, Global>,
) -> Result<Found, AllocError>
    requires at { at < length replicas.now }
    requires table { AreOfOneTable replicas.now i }
    requires small { AreSmall replicas.now }
    requires place { (x : ReplicaView) → slice_get replicas.now at ≡ Some x → (i < length x.log) × (x.schema ≡ arc_value schema.now) }
    ensures { IfOk result (λ found. (x : ReplicaView) → slice_get replicas.now at ≡ Some x → IsFoundFor replicas.now x i found) }
{
    let worker = &replicas[at];
    let copy = worker.copy();
    let part = match take(alloc, worker, i)? {
        Taken::Missing(part) => part,
        taken => {
            let part = build(alloc, taken, schema)?;
            return Ok(Found::Ready(supply(part)));
        }
    };
    let Entry::Get { .. } = copy.entry(i).unwrap().value() else {
        return Ok(Found::Missing(part));
    };
    let found = fetched_part(alloc, replicas, at, i, schema)?;
    Ok(found)
}
