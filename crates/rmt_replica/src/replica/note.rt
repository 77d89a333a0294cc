//! Notes of the part that waits for its quorum.
ghost use Rattle.std.specs.Prelude.{◌≡◌, ◌↔◌, ◌<◌, false, length, vec_len, vec_capacity, IsTrue, IfOk, OnOk, OnErr};
ghost use Rattle.std.specs.declared.result.Result.TheVariants.{Err};
ghost use Rattle.rmt_model.specs.Words.{Has};
ghost use Rattle.rmt_model.specs.Live.{made};
ghost use Rattle.rmt_model.specs.Fair.{CoveredBy};
ghost use Rattle.rmt_partset.specs.ActiveParts.{part_names};
ghost use Rattle.rmt_events.specs.Sound.{IsSoundTable};
ghost use Rattle.rmt_table.specs.TableTrees.{table_at, IsReplica, IsCopyOf};
ghost use Rattle.rmt_table.specs.Quorums.{IsPendingPart, NotesAt};
ghost use Rattle.rmt_replica.specs.declared.replica_error.ReplicaError.TheVariants as errors;
ghost use Rattle.rmt_replica.specs.Replicas.{copy_of};
ghost use Rattle.rmt_replica.specs.NotedParts.{ListsPart, IsNote};

use crate::replica::Replica;
use crate::replica_error::ReplicaError;
use rmt_list::Equals;
use rmt_names::PartName;
use rmt_table::TableTree;
use std::alloc::{AllocError, Global};

/// Whether a name is among these.
fn is_listed(names: &[PartName], name: &PartName) -> bool
    ensures { IsTrue result ↔ Has names.now name.now }
{
    'names: for other in names {
        if other.equals(name) {
            return true;
        }
    }
    false
}

/// Puts a part at the end of a list, where it isn't in it. It takes no memory.
fn list_part(noted: &mut Vec<PartName>, part: PartName)
    requires room { vec_len noted.old < vec_capacity noted.old }
    ensures { ListsPart noted.old.items part noted.new.items }
{
    if is_listed(noted.as_slice(), &part) {
        return;
    }
    noted.push(part).unwrap();
}

impl Replica {
    /// Notes a part that waits for its quorum and that an active part covers, in the table and in its list. At an error no
    /// memory was left, and both are as they were.
    fn note_covered(
        &mut self,
        alloc: Global,
        tree: &mut TableTree,
        part: PartName,
    ) -> Result<(), AllocError>
        requires here { IsReplica tree.old self.old.number }
        requires waits { IsPendingPart tree.old.quorum.pending part }
        requires made { Has (made self.old.log) part }
        requires covered { CoveredBy (part_names self.old.parts) part }
        ensures call { OnOk result (NotesAt tree.old self.old.number part tree.new) }
        ensures lists { OnOk result (ListsPart self.old.noted part self.new.noted) }
        ensures others { OnOk result (self.new ≡ record self.old { noted = self.new.noted }) }
        ensures err { OnErr result (self.new ≡ self.old) }
        ensures err_table { OnErr result (tree.new ≡ tree.old) }
        ensures replicas { length tree.new.sessions ≡ length tree.old.sessions }
        ensures row { tree.new.row ≡ tree.old.row }
    {
        self.noted.reserve(1)?;
        tree.note_quorum(alloc, self.number, &part)?;
        list_part(&mut self.noted, part);
        Ok(())
    }

    /// Notes the part that waits for its quorum, in the table and in its list, where an active part covers it, and tells
    /// whether one does.
    ///
    /// # Errors
    ///
    /// Down where it isn't up, or out of memory. The replica and the table stay as they were.
    pub fn note(&mut self, alloc: Global, tree: &mut TableTree) -> Result<bool, ReplicaError>
        requires here { IsReplica tree.old self.old.number }
        requires copy { IsCopyOf tree.old (copy_of self.old) }
        ensures noted { IfOk result (λ noted. IsNote self.old tree.old noted self.new tree.new) }
        ensures down { (result ≡ Err errors.Down) ↔ (self.old.up ≡ false) }
        ensures err { OnErr result (self.new ≡ self.old) }
        ensures err_table { OnErr result (tree.new ≡ tree.old) }
        ensures replicas { length tree.new.sessions ≡ length tree.old.sessions }
        ensures row { tree.new.row ≡ tree.old.row }
    {
        if !self.up {
            return Err(ReplicaError::Down);
        }
        tree.is_sound();
        let Some(part) = tree.pending_part() else {
            return Ok(false);
        };
        if !self.is_covered(&part) {
            return Ok(false);
        }
        self.note_covered(alloc, tree, part)?;
        Ok(true)
    }
}
