ghost use Rattle.std.specs.Prelude.{◌≡◌, ◌<◌, ℕ, suc, true, false, length, slice_index_or, IsTrue, OnOk, OnErr};
ghost use Rattle.rmt_partset.specs.Snapshots.{names_in};
ghost use Rattle.rmt_statement_model.specs.TableStates.{learned, learned_to, shown_at};
ghost use Rattle.rmt_clients.specs.Clients.{KnowsTable};
ghost use Rattle.rmt_known.specs.KnownTables.{IsReplicaIn, IsKnownAtOne, KeepsCopy, client_of, known_state};

use crate::known_table::KnownTable;
use crate::marks::{first_unmarked, is_marked, mark_below, mark_place, mark_shown};
use crate::replicas::marks_of;
use rmt_partset::Snapshot;
use rmt_values::ReplicaId;
use std::alloc::AllocError;

impl KnownTable {
    /// Whether a place of the log is known at a replica; none is at one that isn't there.
    pub fn is_known(&self, replica: ReplicaId, i: usize) -> bool
        ensures { result ≡ (client_of self.now).known replica i }
    {
        let Some(marks) = marks_of(&self.marks, replica) else {
            return false;
        };
        is_marked(marks, i)
    }

    /// Whether a place of the log is known at one of these replicas, the first one first.
    pub fn is_known_at_one(&self, replicas: &[bool], i: usize) -> bool
        ensures some { IsTrue result → IsKnownAtOne (client_of self.now) replicas.now i }
        ensures none { (result ≡ false) → (k : ℕ) → slice_index_or replicas.now k false ≡ true → (client_of self.now).known (suc k) i ≡ false }
    {
        'replicas: for k in 0..replicas.len().min(self.marks.len()) {
            if replicas[k] && is_marked(&self.marks[k], i) {
                return true;
            }
        }
        false
    }

    /// The lowest place that isn't known at a replica.
    pub fn first_unknown(&self, replica: ReplicaId) -> usize
        ensures below { (k : ℕ) → k < result → (client_of self.now).known replica k ≡ true }
        ensures unknown { (client_of self.now).known replica result ≡ false }
    {
        let Some(marks) = marks_of(&self.marks, replica) else {
            return 0;
        };
        first_unmarked(marks)
    }

    /// Notes that a place of the log is known at a replica. At an error no memory was left.
    pub fn learn(&mut self, replica: ReplicaId, i: usize) -> Result<(), AllocError>
        requires { IsReplicaIn self.old replica }
        ensures ok { OnOk result (KnowsTable (client_of self.new) (record (known_state self.old) { known = learned (known_state self.old).known replica i })) }
        ensures keeps { KeepsCopy self.old self.new }
        ensures err { OnErr result (self.new ≡ self.old) }
    {
        mark_place(&mut self.marks[usize::from(replica) - 1], i)?;
        Ok(())
    }

    /// Notes that every place below a length is known at a replica. At an error no memory was left.
    pub fn learn_below(&mut self, replica: ReplicaId, len: usize) -> Result<(), AllocError>
        requires { IsReplicaIn self.old replica }
        ensures ok { OnOk result (KnowsTable (client_of self.new) (record (known_state self.old) { known = learned_to (known_state self.old).known replica len })) }
        ensures keeps { KeepsCopy self.old self.new }
        ensures err { OnErr result (self.new ≡ self.old) }
    {
        mark_below(&mut self.marks[usize::from(replica) - 1], len)?;
        Ok(())
    }

    /// Notes that every place of the copy of the log is known at a replica. At an error no memory was left.
    pub fn learn_all(&mut self, replica: ReplicaId) -> Result<(), AllocError>
        requires { IsReplicaIn self.old replica }
        ensures ok { OnOk result (KnowsTable (client_of self.new) (record (known_state self.old) { known = learned_to (known_state self.old).known replica (length self.old.log) })) }
        ensures keeps { KeepsCopy self.old self.new }
        ensures err { OnErr result (self.new ≡ self.old) }
    {
        let len = self.copy.len();
        self.learn_below(replica, len)?;
        Ok(())
    }

    /// Notes that a replica has shown these parts: what they hold is known there from then on. At an error no memory was left.
    pub fn show(&mut self, replica: ReplicaId, parts: &Snapshot) -> Result<(), AllocError>
        requires { IsReplicaIn self.old replica }
        ensures ok { OnOk result (KnowsTable (client_of self.new) (shown_at replica (names_in parts.now) (known_state self.old))) }
        ensures keeps { KeepsCopy self.old self.new }
        ensures err { OnErr result (self.new ≡ self.old) }
    {
        let marks = &mut self.marks[usize::from(replica) - 1];
        mark_shown(marks, &self.copy, parts.parts())?;
        Ok(())
    }
}
