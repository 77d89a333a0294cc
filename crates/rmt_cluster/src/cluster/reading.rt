//! What a query reads at a replica.
ghost use Rattle.std.specs.Prelude.{◌≡◌, ◌↔◌, IfOk, length};
ghost use Rattle.std.specs.List.{All};
ghost use Rattle.std.specs.declared.result.Result.TheVariants.{Err};
ghost use Rattle.rmt_format.specs.PartBytes.{HasPartBytes};
ghost use Rattle.rmt_replica.specs.declared.replica_error.ReplicaError.TheVariants as errors;
ghost use Rattle.rmt_events.specs.Views.{Replica};
ghost use Rattle.rmt_events.specs.ClusterChanges.{IsNumbered, IsDown};
ghost use Rattle.rmt_state.specs.States.{IsNumber};
ghost use Rattle.rmt_cluster.specs.Readings.{parts_read};

use crate::cluster::Cluster;
use rmt_history::LogCopy;
use rmt_partset::Snapshot;
use rmt_replica::ReplicaError;
use rmt_values::ReplicaId;
use std::alloc::Global;

impl Cluster {
    /// The active parts of a replica at this moment, as a query reads them. It shares their rows.
    ///
    /// # Errors
    ///
    /// Down where the replica is down, or out of memory.
    pub fn snapshot(&self, alloc: Global, replica: ReplicaId) -> Result<Snapshot, ReplicaError>
        requires here { IsNumber replica (length self.now.replicas) }
        ensures ok { IfOk result (λ read. (x : Replica) → IsNumbered self.now replica x
            → read ≡ parts_read self.now.table.schema x.parts) }
        ensures bytes { IfOk result (All (λ part. HasPartBytes self.now.table.schema part.rows)) }
        ensures down { (result ≡ Err errors.Down) ↔ IsDown self.now replica }
    {
        self.state.sound();
        let at = usize::from(replica) - 1;
        let worker = &self.state.replicas()[at];
        let _standing = worker.copy();
        worker.snapshot(alloc)
    }

    /// A replica's copy of the log.
    pub fn copy(&self, replica: ReplicaId) -> &LogCopy
        requires here { IsNumber replica (length self.now.replicas) }
        ensures log { (x : Replica) → IsNumbered self.now replica x → result.now.log ≡ x.log }
        ensures schema { result.now.schema ≡ self.now.table.schema }
    {
        self.state.sound();
        let place = usize::from(replica) - 1;
        self.state.replicas()[place].copy()
    }
}
