ghost use Rattle.std.specs.Prelude.{◌≡◌, ◌↔◌, false, IsTrue, IfOk, OnOk, OnErr, MatchOption};
ghost use Rattle.rmt_history.specs.Copies.{IsLogOf};
ghost use Rattle.rmt_model.specs.Lawful.{IsPrefix};
ghost use Rattle.rmt_table.specs.TableTrees.{IsCopyOf};
ghost use Rattle.rmt_known.specs.KnownTables.{GoesOnFromKnown, copy_in, seen_of, with_copy};

use crate::known_table::KnownTable;
use crate::quorums::{goes_on, newer};
use rmt_names::PartitionId;
use rmt_table::TableTree;
use std::alloc::{AllocError, Global};

/// Whether the numbers are the same.
fn are_same(known: &[(PartitionId, u32)], found: &[(PartitionId, u32)]) -> bool
    ensures { IsTrue result ↔ known.now ≡ found.now }
{
    known == found
}

/// Returns a copy of the numbers that are found where they differ from those that are known. At an error no memory was left.
fn newer_numbers(
    alloc: Global,
    known: &[(PartitionId, u32)],
    found: &[(PartitionId, u32)],
) -> Result<Option<Vec<(PartitionId, u32)>>, AllocError>
    ensures { IfOk result (λ copy. MatchOption copy (known.now ≡ found.now) (λ numbers. numbers.items ≡ found.now)) }
{
    if are_same(known, found) {
        return Ok(None);
    }
    let copy = Vec::from_slice(alloc, found)?;
    Ok(Some(copy))
}

impl KnownTable {
    /// Whether the table goes on from what is known of it: its log from the copy, by no call of the client's own, and its quorum by
    /// notes alone. It takes no memory.
    pub fn meets(&self, tree: &TableTree) -> bool
        requires schema { self.now.schema ≡ tree.now.schema }
        requires row { IsLogOf tree.now.row (copy_in self.now) }
        ensures yes { IsTrue result → GoesOnFromKnown self.now tree.now }
        ensures no { result ≡ false → GoesOnFromKnown self.now tree.now → ⊥ }
    {
        tree.is_sound();
        if !tree.meet(&self.copy) {
            return false;
        }
        if !are_same(&self.next, tree.next_numbers()) {
            return false;
        }
        goes_on(&self.quorum, tree.quorum_state())
    }

    /// Sees the table as it is: the copy is brought to the log's length, and the numbers and the quorum are the table's.
    ///
    /// At an error no memory was left, and the copy of the log may be longer.
    pub fn see(&mut self, alloc: Global, tree: &TableTree) -> Result<(), AllocError>
        requires { IsCopyOf tree.now (copy_in self.old) }
        ensures ok { OnOk result (self.new ≡ seen_of tree.now self.new.cells self.old) }
        ensures of { IsCopyOf tree.now (copy_in self.new) }
        ensures longer { IsPrefix self.old.log self.new.log }
        ensures err { OnErr result (self.new ≡ with_copy self.new.log self.new.cells self.old) }
    {
        tree.is_sound();
        let next = newer_numbers(alloc, &self.next, tree.next_numbers())?;
        let quorum = newer(alloc, &self.quorum, tree.quorum_state())?;
        let _length = tree.extend_copy(&mut self.copy)?;
        if let Some(next) = next {
            self.next = next;
        }
        if let Some(quorum) = quorum {
            self.quorum = quorum;
        }
        Ok(())
    }
}
