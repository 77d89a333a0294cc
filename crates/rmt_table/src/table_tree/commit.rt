ghost use Rattle.std.specs.Prelude.{◌≡◌, ◌≢◌, ◌∷◌, ◌++◌, true, None, length, [], IfOk, IfErr, IfSome, OnOk, OnErr};
ghost use Rattle.rmt_tree.specs.Ops.{after_all};
ghost use Rattle.rmt_tree.specs.declared.op.Op.TheVariants as op;
ghost use Rattle.rmt_znodes.specs.declared.znode.Znode.TheVariants as ZnodeOf;
ghost use Rattle.rmt_znodes.specs.Znodes.{znode_path, entry_path};
ghost use Rattle.rmt_names.specs.Names.{block_name as block_name_of};
ghost use Rattle.rmt_table_model.specs.Kept.{in_order, with_id};
ghost use Rattle.rmt_entries.specs.EntryBytes.{entry_bytes, EntryInRange};
ghost use Rattle.rmt_entries.specs.declared.entry.Entry.TheVariants.{Get};
ghost use Rattle.rmt_events.specs.TableCalls.{Commits, IsLocked};
ghost use Rattle.rmt_events.specs.TableRefusals.{HasQuorum};
ghost use Rattle.rmt_table_model.specs.Held.{table_of, holders_in};
ghost use Rattle.rmt_table_model.specs.Numbers.{IsLocked as IsHeldBy};
ghost use Rattle.rmt_table_model.specs.Nodes.{commit_ops as commit_ops_of, keep_ops as keep_ops_of, status_ops};
ghost use Rattle.rmt_table.specs.TableTrees.{table_at, IsReplica, AfterNoCommit, next_token};
ghost use Rattle.rmt_table.specs.Causes.{commit_cause};
ghost use Rattle.rmt_table.specs.Refusals.{NoCommit, IsAcceptable, TakesLock};

use crate::commit_error::CommitError;
use crate::lock::Lock;
use crate::ops::{append, delete, write_op};
use crate::table_tree::TableTree;
use rmt_entries::Entry;
use rmt_inserts::{keep_ops, kept};
use rmt_names::block_name;
use rmt_quorum::open_ops;
use rmt_row::Seen;
use rmt_tree::{Op, Path};
use rmt_values::Limit;
use rmt_znodes::{Znode, is_id};
use std::alloc::{AllocError, Global};

/// The entry of the block of a lock.
fn entry_of(lock: &Lock, need: u32) -> Entry
    ensures { result ≡ Get lock.now.id.partition lock.now.number lock.now.id.digest lock.now.replica need }
{
    Entry::Get {
        partition: lock.id.partition,
        number: lock.number,
        digest: lock.id.digest,
        source: lock.replica,
        need,
    }
}

/// The operations that remove a lock, whose path this is, and write the entry of its block. At an error no memory was left.
fn block_ops(alloc: Global, lock: &Lock, path: Path, need: u32) -> Result<Vec<Op>, AllocError>
    requires in_range { EntryInRange (Get lock.now.id.partition lock.now.number lock.now.id.digest lock.now.replica need) }
    ensures { IfOk result (λ ops. ops.items ≡ op.Delete path None ∷ op.Create entry_path (entry_bytes (Get lock.now.id.partition lock.now.number lock.now.id.digest lock.now.replica need)) true None ∷ []) }
{
    let write = write_op(alloc, entry_of(lock, need))?;
    let unlock = Op::Delete {
        path,
        version: None,
    };
    let ops = vec![in alloc; unlock, write]?;
    Ok(ops)
}

impl TableTree {
    /// Why the block of a lock, which is there, isn't accepted. At an error no memory was left.
    fn commit_refusal(
        &self,
        alloc: Global,
        lock: &Lock,
        need: u32,
        values: u64,
    ) -> Result<Option<CommitError>, AllocError>
        requires locked { IsLocked (table_at self.now).locks lock.now.id.partition lock.now.number }
        ensures none { IfOk result (λ refused. refused ≡ None → IsAcceptable (table_at self.now) lock.now need values) }
        ensures some { IfOk result (λ refused. IfSome refused (λ e. IfSome (commit_cause e)
            (NoCommit (table_at self.now) lock.now need values))) }
        ensures takes { IfOk result (λ refused. IfSome refused TakesLock) }
    {
        if let Some(error) = self.quorum_refusal(need) {
            return Ok(Some(CommitError::of_quorum(error)));
        }
        if let Some(part) = kept(&self.window, &lock.id) {
            return Ok(Some(CommitError::Duplicate(part)));
        }
        if self.clients >= 32_768 {
            return Ok(Some(CommitError::LimitReached {
                limit: Limit::ClientEntries,
                value: u64::from(self.clients),
            }));
        }
        if values > 8_388_608 - self.values {
            return Ok(Some(CommitError::LimitReached {
                limit: Limit::Values,
                value: self.values,
            }));
        }
        Ok(None)
    }

    /// The operations that accept the block of a lock. At an error no memory was left.
    fn commit_ops(
        &self,
        alloc: Global,
        lock: &Lock,
        path: Path,
        need: u32,
    ) -> Result<Vec<Op>, AllocError>
        requires path { path ≡ znode_path (ZnodeOf.Lock lock.now.id.partition lock.now.number) }
        requires in_range { EntryInRange (Get lock.now.id.partition lock.now.number lock.now.id.digest lock.now.replica need) }
        ensures { IfOk result (λ ops. ops.items ≡ op.Delete (znode_path (ZnodeOf.Lock lock.now.id.partition lock.now.number)) None ∷ op.Create entry_path (entry_bytes (Get lock.now.id.partition lock.now.number lock.now.id.digest lock.now.replica need)) true None ∷ (keep_ops_of self.now.schema.window (in_order self.now.schema.window self.now.log) lock.now.id.partition lock.now.id.digest (block_name_of lock.now.id.partition lock.now.number) ++ status_ops (block_name_of lock.now.id.partition lock.now.number) need)) }
    {
        let mut ops = block_ops(alloc, lock, path, need)?;
        let mut keep = self.id_ops(alloc, lock)?;
        ops.append(&mut keep)?;
        let mut open = open_ops(alloc, &block_name(lock.id.partition, lock.number), need)?;
        ops.append(&mut open)?;
        Ok(ops)
    }

    /// The operations that keep the id of the block of a lock. At an error no memory was left.
    fn id_ops(&self, alloc: Global, lock: &Lock) -> Result<Vec<Op>, AllocError>
        ensures { IfOk result (λ ops. ops.items ≡ keep_ops_of self.now.schema.window (in_order self.now.schema.window self.now.log) lock.now.id.partition lock.now.id.digest (block_name_of lock.now.id.partition lock.now.number)) }
    {
        let part = block_name(lock.id.partition, lock.number);
        let window = self.schema.window();
        let keep = keep_ops(&self.window, alloc, &lock.id, &part, window)?;
        Ok(keep)
    }

    /// Accepts the block of a lock: its entry and its id are written, and the lock goes. Where the block asks for a quorum,
    /// its part waits for it then. The entry's token comes back. `need` is how many replicas have to note the part, 0 for no
    /// quorum. `values` is the number of the block's rows times the number of its columns.
    ///
    /// At `LockGone` and `Memory` the table is as it was, and at each other error the lock is gone.
    pub fn commit_insert(
        &mut self,
        alloc: Global,
        lock: &Lock,
        need: u32,
        values: u64,
    ) -> Result<Seen<Entry>, CommitError>
        requires here { IsReplica self.old lock.now.replica }
        requires quorum { need ≢ 1 }
        ensures has_quorum { OnOk result (HasQuorum (table_at self.old) need) }
        ensures token { IfOk result (λ token. token ≡ next_token self.old (Get lock.now.id.partition lock.now.number lock.now.id.digest lock.now.replica need)) }
        ensures commits { OnOk result (Commits (table_at self.old) lock.now.id.partition lock.now.number lock.now.id.digest lock.now.replica need values (table_at self.new)) }
        ensures ops { OnOk result (self.new.tree ≡ after_all self.old.tree (commit_ops_of entry_bytes lock.now.id.partition lock.now.number lock.now.id.digest lock.now.replica need (table_of self.old))) }
        ensures refused { IfErr result (λ e. IfSome (commit_cause e)
            (NoCommit (table_at self.old) lock.now need values)) }
        ensures err { IfErr result (λ e. AfterNoCommit self.old lock.now e self.new) }
        ensures replicas { length self.new.sessions ≡ length self.old.sessions }
        ensures row { self.new.row ≡ self.old.row }
    {
        let path = Znode::Lock {
            partition: lock.id.partition,
            number: lock.number,
        }
        .path(alloc)?;
        if self.tree.get(&path).is_none() {
            return Err(CommitError::LockGone {
                number: lock.number,
            });
        }
        if let Some(refused) = self.commit_refusal(alloc, lock, need, values)? {
            delete(&mut self.tree, alloc, path)?;
            return Err(refused);
        }
        let token = self.accept(alloc, lock, path, need, values)?;
        Ok(token)
    }

    /// Accepts the block of a lock that is there, whose path this is, where nothing refuses the block.
    ///
    /// At an error no memory was left, and the table is as it was.
    fn accept(
        &mut self,
        alloc: Global,
        lock: &Lock,
        path: Path,
        need: u32,
        values: u64,
    ) -> Result<Seen<Entry>, AllocError>
        requires here { IsReplica self.old lock.now.replica }
        requires quorum { need ≢ 1 }
        requires path { path ≡ znode_path (ZnodeOf.Lock lock.now.id.partition lock.now.number) }
        requires locked { IsHeldBy (holders_in self.old.tree) lock.now.id.partition lock.now.number }
        requires acceptable { IsAcceptable (table_at self.old) lock.now need values }
        ensures token { IfOk result (λ token. token ≡ next_token self.old (Get lock.now.id.partition lock.now.number lock.now.id.digest lock.now.replica need)) }
        ensures commits { OnOk result (Commits (table_at self.old) lock.now.id.partition lock.now.number lock.now.id.digest lock.now.replica need values (table_at self.new)) }
        ensures ops { OnOk result (self.new.tree ≡ after_all self.old.tree (commit_ops_of entry_bytes lock.now.id.partition lock.now.number lock.now.id.digest lock.now.replica need (table_of self.old))) }
        ensures err { OnErr result (self.new ≡ self.old) }
        ensures replicas { length self.new.sessions ≡ length self.old.sessions }
        ensures row { self.new.row ≡ self.old.row }
    {
        is_id(&lock.id);
        let ops = self.commit_ops(alloc, lock, path, need)?;
        self.window.reserve()?;
        let entry = entry_of(lock, need);
        let token = append(&mut self.tree, &mut self.log, alloc, &ops, entry)?;
        let part = block_name(lock.id.partition, lock.number);
        self.window.keep(lock.id, part, self.schema.window());
        self.quorum.open(alloc, part, need);
        self.clients += 1;
        self.values += values;
        Ok(token)
    }
}
