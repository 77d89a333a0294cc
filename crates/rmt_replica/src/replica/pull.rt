ghost use Rattle.std.specs.Prelude.{◌≡◌, ◌↔◌, ◌-◌, false, length, slice_index_or, IfOk, OnOk, OnErr};
ghost use Rattle.std.specs.declared.result.Result.TheVariants.{Err};
ghost use Rattle.rmt_queue.specs.Marks.{grown};
ghost use Rattle.rmt_tree.specs.Ops.{after_all};
ghost use Rattle.rmt_table.specs.TableTrees.{table_at, IsReplica, IsCopyOf, pull_ops};
ghost use Rattle.rmt_replica.specs.declared.replica_error.ReplicaError.TheVariants as errors;
ghost use Rattle.rmt_replica.specs.Replicas.{copy_of, LengthensCopy};

use crate::replica::Replica;
use crate::replica_error::ReplicaError;
use rmt_table::TableTree;
use std::alloc::Global;

impl Replica {
    /// Brings its copy to the length of the table's log, which comes back.
    ///
    /// # Errors
    ///
    /// Down where it isn't up: nothing changes. Out of memory: the table stays as it was, and the copy may be longer.
    pub fn pull(&mut self, alloc: Global, tree: &mut TableTree) -> Result<u32, ReplicaError>
        requires here { IsReplica tree.old self.old.number }
        requires copy { IsCopyOf tree.old (copy_of self.old) }
        ensures length { IfOk result (λ len. len ≡ length tree.old.log) }
        ensures ok { OnOk result (self.new ≡ record self.old { log = tree.old.log; cells = self.new.cells; done = grown self.old.done (length tree.old.log) }) }
        ensures longer { LengthensCopy self.old self.new }
        ensures down { (result ≡ Err errors.Down) ↔ (self.old.up ≡ false) }
        ensures nothing { result ≡ Err errors.Down → self.new ≡ self.old }
        // Of the table only its tree changes: it says how much was pulled.
        ensures copy { IsCopyOf tree.new (copy_of self.new) }
        ensures seen { table_at tree.new ≡ table_at tree.old }
        ensures ops { OnOk result (tree.new.tree ≡ after_all tree.old.tree (pull_ops self.old.number (slice_index_or tree.old.pulled (self.old.number - 1) 0) (length tree.old.log))) }
        ensures replicas { length tree.new.sessions ≡ length tree.old.sessions }
        ensures row { tree.new.row ≡ tree.old.row }
        ensures err { OnErr result (tree.new ≡ tree.old) }
    {
        if !self.up {
            return Err(ReplicaError::Down);
        }
        self.queue.grow(tree.log_len() as usize)?;
        let pulled = tree.pull(alloc, self.number, &mut self.copy);
        // Each entry of the copy has a mark, also where no memory was left.
        prove!(self.copy.len() <= self.queue.len());
        Ok(pulled?)
    }
}
