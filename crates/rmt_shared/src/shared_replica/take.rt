//! What is taken out of a replica under its lock.
ghost use Rattle.std.specs.Prelude.{◌<◌, length, IfOk, IfSome};
ghost use Rattle.rmt_row.specs.Token.{IsOf};
ghost use Rattle.rmt_supply.specs.PartSources.{IsGetFor};
ghost use Rattle.rmt_supply.specs.TakenParts.{IsTokenAt, IsTaken, IsHeld, CanBuild};
ghost use Rattle.rmt_shared.specs.SharedTables.{name_at};
ghost use Rattle.rmt_shared.specs.ReplicaSupplies.{IsTakenFrom, IsHeldFrom};

use crate::naming::Naming;
use crate::shared_replica::SharedReplica;
use rmt_entries::Entry;
use rmt_names::PartName;
use rmt_row::Seen;
use rmt_supply::{Held, Taken, take, take_held};
use std::alloc::{AllocError, Global};

impl<N: Naming> SharedReplica<N> {
    /// The token of the entry at a place of the replica's copy. At an error no memory was left.
    pub fn token(&self, i: usize) -> Result<Seen<Entry>, AllocError>
        requires { i < length self.now.replica.log }
        ensures at { IfOk result (IsTokenAt self.now.replica i) }
        ensures row { IfOk result (IsOf (name_at N.tables self.now.table).row) }
    {
        let token = self.replica.copy().entry(i).unwrap().copy()?;
        Ok(token)
    }

    /// Takes what the entry at a place of the replica's copy needs out of the replica: its part is built of that with no lock
    /// held. At an error no memory was left.
    pub fn take(&self, alloc: Global, i: usize) -> Result<Taken, AllocError>
        requires { i < length self.now.replica.log }
        ensures ok { IfOk result (IsTaken self.now.replica i) }
        ensures can_build { IfOk result CanBuild }
        ensures of { IfOk result (IsTakenFrom (name_at N.tables self.now.table) (N.offered self.now.table)) }
    {
        let _standing = self.replica.copy();
        let taken = take(alloc, &self.replica, i)?;
        Ok(taken)
    }

    /// Takes what the replica has for a Get of another replica of its table out of it: its active part that covers the Get's
    /// and was made at a place below `len`, else the block that is staged here. It is sent with no lock held. None where it has
    /// neither. At an error no memory was left.
    pub fn take_held(
        &self,
        get: &Seen<Entry>,
        name: &PartName,
        len: usize,
    ) -> Result<Option<Held>, AllocError>
        requires get { IsGetFor get.now name.now }
        requires row { IsOf (name_at N.tables self.now.table).row get.now }
        ensures ok { IfOk result (IsHeld self.now.replica get.now name.now len) }
        ensures of { IfOk result (λ held. IfSome held
            (IsHeldFrom (name_at N.tables self.now.table) (N.offered self.now.table))) }
    {
        let _standing = self.replica.copy();
        let held = take_held(&self.replica, get, name, len)?;
        Ok(held)
    }
}
