ghost use Rattle.std.specs.Prelude.{◌≡◌, ◌↔◌, ◌≤◌, ◌-◌, ◌∷◌, [], length, slice_index_or, IsTrue, IfOk, OnOk, OnErr};
ghost use Rattle.rmt_tree.specs.Ops.{after_all, first_refusal};
ghost use Rattle.std.specs.Fmt.{decimal};
ghost use Rattle.std.specs.declared.option.Option.TheVariants.{None};
ghost use Rattle.rmt_history.specs.Copies.{entries, IsLogOf};
ghost use Rattle.rmt_model.specs.Lawful.{IsPrefix, Lawful};
ghost use Rattle.rmt_tree.specs.declared.op.Op.TheVariants as op;
ghost use Rattle.rmt_znodes.specs.declared.znode.Znode.TheVariants.{LogPointer};
ghost use Rattle.rmt_znodes.specs.Znodes.{znode_path};
ghost use Rattle.rmt_table.specs.TableTrees.{table_at, IsReplica, IsCopyOf, ArePlaced, pull_ops};

use crate::entry_log::EntryLog;
use crate::ops::{multi, number_text};
use crate::table_tree::TableTree;
use rmt_history::LogCopy;
use rmt_tree::{Op, Tree};
use rmt_values::ReplicaId;
use rmt_znodes::Znode;
use std::alloc::{AllocError, Global};

/// Sets how many entries a replica has pulled. At an error no memory was left, and the tree is as it was.
fn point(tree: &mut Tree, alloc: Global, replica: ReplicaId, len: u32) -> Result<(), AllocError>
    requires fine { first_refusal tree.old (op.Set (znode_path (LogPointer replica)) (decimal len) None ∷ []) 0 ≡ None }
    ensures ok { OnOk result (tree.new ≡ after_all tree.old (op.Set (znode_path (LogPointer replica)) (decimal len) None ∷ [])) }
    ensures err { OnErr result (tree.new ≡ tree.old) }
{
    let path = Znode::LogPointer(replica).path(alloc)?;
    let op = Op::Set {
        path,
        value: number_text(alloc, len)?,
        version: None,
    };
    let ops = vec![in alloc; op]?;
    multi(tree, &ops)
}

/// Brings a copy of the log to the log's length. At an error no memory was left, and the copy is a longer prefix.
fn extend(log: &EntryLog, copy: &mut LogCopy) -> Result<(), AllocError>
    requires lawful { Lawful copy.old.schema (entries log.now.tokens) }
    requires prefix { IsPrefix copy.old.log (entries log.now.tokens) }
    requires places { ArePlaced log.now.row log.now.tokens }
    requires cells { IsLogOf log.now.row copy.old }
    ensures ok { OnOk result (copy.new.log ≡ entries log.now.tokens) }
    ensures schema { copy.new.schema ≡ copy.old.schema }
    ensures longer { IsPrefix copy.old.log copy.new.log }
    ensures prefix { IsPrefix copy.new.log (entries log.now.tokens) }
    ensures cells { IsLogOf log.now.row copy.new }
{
    'entries: while copy.len() < log.len() {
        copy.follow(log.tokens())?;
    }
    Ok(())
}

impl TableTree {
    /// Brings a replica's copy of the log to the log's length, which comes back.
    ///
    /// At an error no memory was left: the table is as it was, and the copy is a prefix of the log that isn't shorter than
    /// before.
    pub fn pull(
        &mut self,
        alloc: Global,
        replica: ReplicaId,
        copy: &mut LogCopy,
    ) -> Result<u32, AllocError>
        requires here { IsReplica self.old replica }
        requires of { IsCopyOf self.old copy.old }
        ensures length { IfOk result (λ len. len ≡ length self.old.log) }
        ensures copied { OnOk result (copy.new.log ≡ self.old.log) }
        ensures seen { OnOk result (table_at self.new ≡ table_at self.old) }
        ensures ops { OnOk result (self.new.tree ≡ after_all self.old.tree (pull_ops replica (slice_index_or self.old.pulled (replica - 1) 0) (length self.old.log))) }
        ensures err { OnErr result (self.new ≡ self.old) }
        ensures schema { copy.new.schema ≡ copy.old.schema }
        ensures longer { IsPrefix copy.old.log copy.new.log }
        ensures prefix { IsPrefix copy.new.log self.old.log }
        ensures cells { IsLogOf self.old.row copy.new }
        ensures replicas { length self.new.sessions ≡ length self.old.sessions }
        ensures row { self.new.row ≡ self.old.row }
    {
        extend(&self.log, copy)?;
        let length = self.log_len();
        let place = usize::from(replica) - 1;
        if self.pulled[place] != length {
            point(&mut self.tree, alloc, replica, length)?;
            self.pulled[place] = length;
        }
        Ok(length)
    }

    /// Brings a copy of the log that is no replica's to the log's length, which comes back.
    ///
    /// At an error no memory was left, and the copy is a prefix of the log that isn't shorter than before.
    pub fn extend_copy(&self, copy: &mut LogCopy) -> Result<u32, AllocError>
        requires of { IsCopyOf self.now copy.old }
        ensures length { IfOk result (λ len. len ≡ length self.now.log) }
        ensures copied { OnOk result (copy.new.log ≡ self.now.log) }
        ensures schema { copy.new.schema ≡ copy.old.schema }
        ensures longer { IsPrefix copy.old.log copy.new.log }
        ensures prefix { IsPrefix copy.new.log self.now.log }
        ensures cells { IsLogOf self.now.row copy.new }
    {
        extend(&self.log, copy)?;
        Ok(self.log_len())
    }

    /// Whether a copy of the table's row isn't longer than the log: then it is a prefix of the log. It takes no memory.
    pub fn meet(&self, copy: &LogCopy) -> bool
        requires schema { copy.now.schema ≡ self.now.schema }
        requires row { IsLogOf self.now.row copy.now }
        ensures short { IsTrue result ↔ length copy.now.log ≤ length self.now.log }
        ensures of { IsTrue result → IsCopyOf self.now copy.now }
    {
        if self.log.len() < copy.len() {
            return false;
        }
        copy.meet_tokens(self.log.tokens().as_slice());
        true
    }
}
