ghost use Rattle.std.specs.Prelude.{◌≡◌, ◌∷◌, ◌++◌, [], ℕ, List, length, true, None, Some, IfOk, IfErr, IfSome, OnErr};
ghost use Rattle.std.specs.Option.{option_map};
ghost use Rattle.std.specs.declared.option.Option.{Option};
ghost use Rattle.rmt_tree.specs.declared.op.Op.{Op};
ghost use Rattle.rmt_entries.specs.declared.entry.Entry.TheVariants.{DropRange};
ghost use Rattle.rmt_tree.specs.declared.op.Op.TheVariants as op;
ghost use Rattle.rmt_entries.specs.EntryBytes.{entry_bytes, EntryInRange};
ghost use Rattle.rmt_znodes.specs.Znodes.{entry_path};
ghost use Rattle.rmt_table_model.specs.Numbers.{Nexts, Holders, next_of};
ghost use Rattle.rmt_table_model.specs.Inserts.{HasNumbers, AreDropOps};
ghost use Rattle.rmt_table_model.specs.Nodes.{number_ops as ops_of_number, pending_drop_ops, last_drop_ops};
ghost use Rattle.rmt_model.specs.BlockNumbers.{next_number};
ghost use Rattle.rmt_model.specs.EntryLimits.{drop_limit};
ghost use Rattle.rmt_events.specs.TableRefusals.{NoDrop};
ghost use Rattle.rmt_table.specs.TableTrees.{table_at, IsDrop};
ghost use Rattle.rmt_table.specs.Causes.{change_cause};
ghost use Rattle.rmt_table.specs.declared.change_error.ChangeError.TheVariants as change;

use crate::change_error::ChangeError;
use crate::ops::{append, write_op};
use crate::table_tree::TableTree;
use rmt_entries::Entry;
use rmt_inserts::{Window, drop_ops, number_ops};
use rmt_names::PartitionId;
use rmt_quorum::QuorumState;
use rmt_row::Seen;
use rmt_tree::{Op, Tree};
use rmt_values::Limit;
use std::alloc::{AllocError, Global};

/// The operations that drop the numbers of a partition below its next one, which is this, write the entry of the drop, and
/// take away what it takes of the quorum. At an error no memory was left.
fn ops_of_drop(
    window: &Window,
    tree: &Tree,
    quorum: &QuorumState,
    alloc: Global,
    partition: PartitionId,
    number: u32,
) -> Result<Vec<Op>, AllocError>
    requires in_range { EntryInRange (DropRange partition number) }
    ensures { (next : Nexts) (holders : Holders) → HasNumbers tree.now next holders → next_of next partition ≡ Some number
        → IfOk result (λ ops. (removals : List Op) × AreDropOps holders window.now.placed partition number removals
        × (ops.items ≡ ops_of_number partition number ++ (removals ++ op.Create entry_path (entry_bytes (DropRange partition number)) true None ∷ (pending_drop_ops partition number quorum.now.pending ++ last_drop_ops partition number quorum.now.last)))) }
{
    let mut ops = number_ops(tree, alloc, partition)?;
    let mut removals = drop_ops(window, tree, alloc, partition, number)?;
    ops.append(&mut removals)?;
    let write = write_op(alloc, Entry::DropRange { partition, number })?;
    ops.push(write)?;
    let mut gone = quorum.drop_ops(alloc, partition, number)?;
    ops.append(&mut gone)?;
    Ok(ops)
}

impl TableTree {
    /// Drops all parts of a partition: a drop of the numbers below its next one is appended, and takes that number. The
    /// locks of inserts in flight and the kept ids of the partition's blocks go, and its part that waits for its quorum, or
    /// whose quorum was met last. The entry's token comes back; `None` where the partition doesn't exist.
    ///
    /// At an error the table is as it was.
    pub fn drop_partition(
        &mut self,
        alloc: Global,
        partition: PartitionId,
    ) -> Result<Option<Seen<Entry>>, ChangeError>
        ensures done { IfOk result (λ token. IsDrop self.old partition token self.new) }
        ensures refused { IfErr result (λ e. IfSome (change_cause e)
            (NoDrop (table_at self.old) partition)) }
        ensures err { OnErr result (self.new ≡ self.old) }
        ensures replicas { length self.new.sessions ≡ length self.old.sessions }
        ensures row { self.new.row ≡ self.old.row }
    {
        let Some(number) = self.partitions.number(partition) else {
            return Ok(None);
        };
        if let Some(error) = self.drop_refusal(number) {
            return Err(error);
        }
        self.partitions.reserve()?;
        let quorum = &self.quorum;
        let ops = ops_of_drop(&self.window, &self.tree, quorum, alloc, partition, number)?;
        let entry = Entry::DropRange { partition, number };
        let token = append(&mut self.tree, &mut self.log, alloc, &ops, entry)?;
        self.partitions.take(partition);
        self.window.forget(partition, number);
        self.quorum.drop_below(partition, number);
        self.clients += 1;
        Ok(Some(token))
    }

    /// Why the drop of a partition, whose next number this is, isn't appended.
    fn drop_refusal(&self, number: u32) -> Option<ChangeError>
        ensures { (p : Option ℕ) → number ≡ next_number self.now.next p → result ≡ option_map (λ l. change.LimitReached l.0 l.1) (drop_limit self.now.next self.now.log p) }
    {
        if number >= 65_536 {
            return Some(ChangeError::LimitReached {
                limit: Limit::Numbers,
                value: u64::from(number),
            });
        }
        if self.clients >= 32_768 {
            return Some(ChangeError::LimitReached {
                limit: Limit::ClientEntries,
                value: u64::from(self.clients),
            });
        }
        None
    }
}
