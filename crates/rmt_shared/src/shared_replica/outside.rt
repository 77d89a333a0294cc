//! What reaches a replica from outside of its log.
ghost use Rattle.std.specs.Prelude.{◌≡◌, ◌↔◌, true, false, length, replicate, IfOk, OnOk, OnErr};
ghost use Rattle.std.specs.Arc.{arc_value};
ghost use Rattle.std.specs.declared.result.Result.TheVariants.{Err};
ghost use Rattle.rmt_partset.specs.ActiveParts.{shown};
ghost use Rattle.rmt_replica.specs.declared.replica_error.ReplicaError.TheVariants as errors;
ghost use Rattle.rmt_replica.specs.StagedBlocks.{with_staged, without};
ghost use Rattle.rmt_shared.specs.SharedTables.{name_at};
ghost use Rattle.rmt_shared.specs.ReplicaSupplies.{IsBlockOfNamed};

use crate::naming::Naming;
use crate::shared_replica::SharedReplica;
use rmt_block::Block;
use rmt_names::PartitionId;
use rmt_partset::Snapshot;
use rmt_replica::ReplicaError;
use std::alloc::Global;
use std::sync::Arc;

impl<N: Naming> SharedReplica<N> {
    /// Keeps a block under its number until the Get of that number is done.
    ///
    /// # Errors
    ///
    /// Down where the replica isn't up, or out of memory. The replica stays as it was.
    pub fn stage(&mut self, number: u32, block: Arc<Block, Global>) -> Result<(), ReplicaError>
        requires of { IsBlockOfNamed (name_at N.tables self.old.table) (N.offered self.old.table) (arc_value block) }
        ensures ok { OnOk result (self.new.replica ≡ record self.old.replica { staged = with_staged self.old.replica.staged (record { partition = (arc_value block).partition; number = number }) (arc_value block) }) }
        ensures table { self.new.table ≡ self.old.table }
        ensures err { OnErr result (self.new ≡ self.old) }
        ensures down { (result ≡ Err errors.Down) ↔ (self.old.replica.up ≡ false) }
    {
        self.replica.stage(number, block)
    }

    /// Lets the block go that is staged under a number.
    pub fn unstage(&mut self, partition: PartitionId, number: u32)
        ensures replica { self.new.replica ≡ record self.old.replica { staged = without self.old.replica.staged (record { partition = partition; number = number }) } }
        ensures table { self.new.table ≡ self.old.table }
    {
        self.replica.unstage(partition, number);
    }

    /// Takes the replica down. It keeps all that it has.
    pub fn kill(&mut self)
        ensures replica { self.new.replica ≡ record self.old.replica { up = false } }
        ensures table { self.new.table ≡ self.old.table }
    {
        self.replica.kill();
    }

    /// Brings the replica up, so that it looks at each entry of its copy again.
    pub fn restart(&mut self)
        ensures replica { self.new.replica ≡ record self.old.replica { up = true; done = replicate (length self.old.replica.log) false } }
        ensures table { self.new.table ≡ self.old.table }
    {
        self.replica.restart();
    }

    /// Allows or stops fetches. It takes no memory.
    pub fn set_fetches(&mut self, allowed: bool)
        ensures replica { self.new.replica ≡ record self.old.replica { fetches = allowed } }
        ensures table { self.new.table ≡ self.old.table }
    {
        self.replica.set_fetches(allowed);
    }

    /// The active parts at this moment, as a query reads them with no lock held.
    pub fn snapshot(&self, alloc: Global) -> Result<Snapshot, ReplicaError>
        ensures ok { IfOk result (λ s. s ≡ shown self.now.replica.parts) }
        ensures down { (result ≡ Err errors.Down) ↔ (self.now.replica.up ≡ false) }
    {
        self.replica.snapshot(alloc)
    }
}
