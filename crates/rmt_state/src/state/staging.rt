//! Blocks that are staged at a replica.
ghost use Rattle.std.specs.Prelude.{◌≡◌, ◌↔◌, IsTrue, IfOk, OnOk, OnErr};
ghost use Rattle.std.specs.Arc.{arc_value};
ghost use Rattle.std.specs.declared.result.Result.TheVariants.{Err};
ghost use Rattle.rmt_events.specs.Clusters.{without_kinds};
ghost use Rattle.rmt_events.specs.ReplicaCalls.{Stages, Unstages};
ghost use Rattle.rmt_table.specs.TableTrees.{IsReplica};
ghost use Rattle.rmt_replica.specs.declared.replica_error.ReplicaError.TheVariants as errors;
ghost use Rattle.rmt_state.specs.States.{ActsAt, IsDownIn, ChangesAt, HasSomeBlockAt};

use crate::state::State;
use rmt_block::Block;
use rmt_names::PartitionId;
use rmt_replica::ReplicaError;
use rmt_values::ReplicaId;
use std::alloc::Global;
use std::sync::Arc;

impl State {
    /// Keeps a block at a replica until its Get is done there. At an error nothing changed.
    pub fn stage(
        &mut self,
        replica: ReplicaId,
        number: u32,
        block: Arc<Block, Global>,
    ) -> Result<(), ReplicaError>
        requires here { IsReplica self.old.tree replica }
        ensures ok { OnOk result (ActsAt self.old replica (λ x y. Stages x number (without_kinds (arc_value block)) y) self.new) }
        ensures down { result ≡ Err errors.Down → IsDownIn self.old replica }
        ensures err { OnErr result (self.new ≡ self.old) }
        ensures tree { self.new.tree ≡ self.old.tree }
    {
        let at = usize::from(replica) - 1;
        let _standing = self.replicas[at].copy();
        self.replicas[at].stage(number, block)
    }

    /// Lets the block go that is staged at a replica under a number.
    pub fn unstage(&mut self, replica: ReplicaId, partition: PartitionId, number: u32)
        requires here { IsReplica self.old.tree replica }
        ensures { ChangesAt self.old replica (λ x y. Unstages x partition number y) self.new }
    {
        let at = usize::from(replica) - 1;
        let _standing = self.replicas[at].copy();
        self.replicas[at].unstage(partition, number);
    }

    /// Whether a block is staged at a replica under a number.
    pub fn has_staged(&self, replica: ReplicaId, partition: PartitionId, number: u32) -> bool
        requires here { IsReplica self.now.tree replica }
        ensures { IsTrue result ↔ HasSomeBlockAt self.now replica partition number }
    {
        let at = usize::from(replica) - 1;
        let _standing = self.replicas[at].copy();
        self.replicas[at].staged(partition, number).is_some()
    }
}
