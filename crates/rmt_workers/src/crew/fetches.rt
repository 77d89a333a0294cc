//! What a replica gets from another one.
ghost use Rattle.std.specs.Prelude.{◌≡◌, ◌<◌, length, IfOk, IfSome};
ghost use Rattle.std.specs.Arc.{arc_value};
ghost use Rattle.rmt_shared.specs.SharedTables.{name_at};
ghost use Rattle.rmt_shared.specs.ReplicaSupplies.{IsHeldFrom};
ghost use Rattle.rmt_supply.specs.PartSources.{IsGetFor};
ghost use Rattle.rmt_workers.specs.Crews.{IsWantedOf};

use crate::crew::Crew;
use crate::wanted::Wanted;
use rmt_entries::Entry;
use rmt_names::{PartName, block_name};
use rmt_outside::Gate;
use rmt_row::Seen;
use rmt_shared::{Naming, SharedReplica, send_supply};
use rmt_supply::Held;
use rmt_values::{ReplicaId, Schema};
use std::alloc::{AllocError, Global};
use std::sync::{Arc, Wait};

/// The most replicas that a table may have.
const MOST_REPLICAS: ReplicaId = 8;

/// The part that an entry makes, where it is a Get.
fn part_of(token: &Seen<Entry>) -> Option<PartName>
    ensures { IfSome result (IsGetFor token.now) }
{
    let Entry::Get {
        partition,
        number,
        ..
    } = token.value()
    else {
        return None;
    };
    Some(block_name(*partition, *number))
}

/// The Get at a place of a replica's copy, as another one is asked for it; `None` where that is no Get. At an error no
/// memory was left.
fn wanted_at<N: Naming>(
    here: &SharedReplica<N>,
    place: usize,
    schema: Arc<Schema, Global>,
) -> Result<Option<Wanted>, AllocError>
    requires schema { arc_value schema ≡ (name_at N.tables here.now.table).schema }
    ensures { IfOk result (λ wanted. IfSome wanted (IsWantedOf (name_at N.tables here.now.table))) }
{
    let len = here.replica().copy().len();
    if place >= len {
        return Ok(None);
    }
    let get = here.token(place)?;
    let Some(name) = part_of(&get) else {
        return Ok(None);
    };
    Ok(Some(Wanted {
        place,
        get,
        name,
        len,
        schema,
    }))
}

impl<N: Naming> Crew<N> {
    /// Takes what a replica has of a Get of another one out of it, where it is up. At an error no memory was left.
    fn take_held<R: Wait>(
        &self,
        rt: &R,
        table: usize,
        holder: ReplicaId,
        wanted: &Wanted,
    ) -> Result<Option<Held>, AllocError>
        requires { IsWantedOf (name_at N.tables table) wanted.now }
        ensures { IfOk result (λ held. IfSome held (IsHeldFrom (name_at N.tables table) (N.offered table))) }
    {
        let Some(guard) = self.find_replica(rt, table, holder) else {
            return Ok(None);
        };
        let there = &*guard;
        if !there.replica().is_up() {
            return Ok(None);
        }
        let held = there.take_held(&wanted.get, &wanted.name, wanted.len)?;
        Ok(held)
    }

    /// Has a replica do a Get with what another one sends, and tells whether that one has it. At an error no memory was left.
    fn fetch_from<R: Wait, G: Gate>(
        &self,
        rt: &R,
        table: usize,
        replica: ReplicaId,
        holder: ReplicaId,
        wanted: &Wanted,
        gate: &G,
    ) -> Result<bool, AllocError>
        requires { IsWantedOf (name_at N.tables table) wanted.now }
    {
        let Some(held) = self.take_held(rt, table, holder, wanted)? else {
            return Ok(false);
        };
        let Some(supply) = send_supply::<N>(self.alloc, table, held, &wanted.schema)? else {
            return Ok(false);
        };
        self.install(rt, table, replica, wanted.place, supply, gate)?;
        Ok(true)
    }

    /// Has a replica do the Get at a place with what another one sends, and tells whether there was one that had it. At an
    /// error no memory was left.
    pub(crate) fn fetch<R: Wait, G: Gate>(
        &self,
        rt: &R,
        table: usize,
        replica: ReplicaId,
        place: usize,
        schema: Arc<Schema, Global>,
        gate: &G,
    ) -> Result<bool, AllocError>
        requires schema { arc_value schema ≡ (name_at N.tables table).schema }
    {
        let Some(wanted) = self.want(rt, table, replica, place, schema)? else {
            return Ok(false);
        };
        'holders: for holder in 1..=MOST_REPLICAS {
            if holder == replica {
                continue;
            }
            if self.fetch_from(rt, table, replica, holder, &wanted, gate)? {
                return Ok(true);
            }
        }
        Ok(false)
    }

    /// The Get at a place that a replica can't do of what it has; `None` where that is no Get. At an error no memory was left.
    fn want<R: Wait>(
        &self,
        rt: &R,
        table: usize,
        replica: ReplicaId,
        place: usize,
        schema: Arc<Schema, Global>,
    ) -> Result<Option<Wanted>, AllocError>
        requires schema { arc_value schema ≡ (name_at N.tables table).schema }
        ensures { IfOk result (λ wanted. IfSome wanted (IsWantedOf (name_at N.tables table))) }
    {
        let guard = self.lock_replica(rt, table, replica);
        let here = &*guard;
        wanted_at(here, place, schema)
    }
}
