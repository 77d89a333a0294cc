ghost use Rattle.std.specs.Prelude.{◌≡◌, ◌<◌, ◌∷◌, ◌++◌, [], length, true, false, None, IfOk, IfErr, IfSome, OnOk, OnErr};
ghost use Rattle.std.specs.Option.{option_map};
ghost use Rattle.std.specs.Fmt.{decimal};
ghost use Rattle.rmt_values.specs.Commands.{CommandFits};
ghost use Rattle.rmt_tree.specs.Ops.{first_refusal, after_all};
ghost use Rattle.rmt_tree.specs.declared.op.Op.TheVariants as op;
ghost use Rattle.rmt_znodes.specs.declared.znode.Znode.TheVariants.{MutationNode};
ghost use Rattle.rmt_znodes.specs.Znodes.{znode_path, entry_path};
ghost use Rattle.rmt_entries.specs.EntryBytes.{entry_bytes, EntryInRange, CommandInRange};
ghost use Rattle.rmt_entries.specs.declared.entry.Entry.TheVariants.{Mutation};
ghost use Rattle.rmt_model.specs.Lawful.{mutation_count};
ghost use Rattle.rmt_model.specs.EntryLimits.{mutation_limit};
ghost use Rattle.rmt_events.specs.TableCalls.{CreatesMutation};
ghost use Rattle.rmt_events.specs.TableRefusals.{NoMutation};
ghost use Rattle.rmt_table_model.specs.Held.{table_of};
ghost use Rattle.rmt_table_model.specs.Nodes.{mutation_ops, number_ops as ops_of_number, numbers_ops as ops_of_numbers};
ghost use Rattle.rmt_table.specs.TableTrees.{table_at, token_in, next_token};
ghost use Rattle.rmt_table.specs.MutationOps.{mutation_tail, mutation_ops as mutation_ops_of};
ghost use Rattle.rmt_table.specs.Causes.{change_cause};
ghost use Rattle.rmt_table.specs.declared.change_error.ChangeError.TheVariants as change;

use crate::change_error::ChangeError;
use crate::entry_log::EntryLog;
use crate::ops::{append_value, entry_op, number_text};
use crate::table_tree::TableTree;
use rmt_entries::Entry;
use rmt_list::List;
use rmt_names::PartitionId;
use rmt_row::Seen;
use rmt_tree::{Op, Tree};
use rmt_values::{Blob, CheckedMutation, Limit};
use rmt_znodes::{Znode, lock_path};
use std::alloc::{AllocError, Global};
use std::sync::Arc;

/// Adds the operations that take a number of a partition, its next one, and leave no lock on it.
///
/// At an error no memory was left.
fn push_number(
    ops: &mut Vec<Op>,
    alloc: Global,
    partition: PartitionId,
    number: u32,
) -> Result<(), AllocError>
    ensures { OnOk result (ops.new.items ≡ ops.old.items ++ ops_of_number partition number) }
{
    let path = lock_path(alloc, partition)?;
    ops.push(Op::Create {
        path,
        value: Blob::new(Vec::new(alloc)),
        sequential: true,
        owner: None,
    })?;
    let path = Znode::Lock { partition, number }.path(alloc)?;
    ops.push(Op::Delete {
        path,
        version: None,
    })?;
    Ok(())
}

/// The operations that take the next number of each of these partitions. At an error no memory was left.
fn numbers_ops(alloc: Global, numbers: &[(PartitionId, u32)]) -> Result<Vec<Op>, AllocError>
    ensures { IfOk result (λ ops. ops.items ≡ ops_of_numbers numbers.now) }
{
    let mut ops = Vec::new(alloc);
    'pairs: for pair in numbers {
        push_number(&mut ops, alloc, pair.0, pair.1)?;
    }
    Ok(ops)
}

/// Adds the operations that make the znode of a mutation, whose entry stands at this place, and write that entry.
///
/// At an error no memory was left.
fn push_entry(
    ops: &mut Vec<Op>,
    alloc: Global,
    id: u32,
    place: u32,
    entry: &Entry,
) -> Result<(), AllocError>
    requires in_range { EntryInRange entry.now }
    ensures { OnOk result (ops.new.items ≡ ops.old.items ++ (op.Create (znode_path (MutationNode id)) (decimal place) false None ∷ op.Create entry_path (entry_bytes entry.now) true None ∷ [])) }
{
    let path = Znode::MutationNode(id).path(alloc)?;
    let value = number_text(alloc, place)?;
    ops.push(Op::Create {
        path,
        value,
        sequential: false,
        owner: None,
    })?;
    ops.push(entry_op(alloc, entry)?)?;
    Ok(())
}

/// Appends the mutation of this id, which takes these numbers. Its entry, which goes to this place, comes back as a token.
///
/// At an error no memory was left, and tree and log are as they were.
fn append_mutation(
    tree: &mut Tree,
    log: &mut EntryLog,
    alloc: Global,
    id: u32,
    place: u32,
    numbers: List<(PartitionId, u32)>,
    command: CheckedMutation,
) -> Result<Seen<Entry>, AllocError>
    requires in_range { EntryInRange (Mutation id numbers command) }
    requires fine { first_refusal tree.old (mutation_ops_of id place numbers command) 0 ≡ None }
    requires room { length log.old.tokens < length log.old.row }
    ensures tree { OnOk result (tree.new ≡ after_all tree.old (mutation_ops_of id place numbers command)) }
    ensures log { IfOk result (λ token. log.new.tokens ≡ log.old.tokens ++ token ∷ []) }
    ensures token { IfOk result (λ token. token ≡ token_in log.old.row (length log.old.tokens) (Mutation id numbers command)) }
    ensures row { log.new.row ≡ log.old.row }
    ensures err_tree { OnErr result (tree.new ≡ tree.old) }
    ensures err_log { OnErr result (log.new.tokens ≡ log.old.tokens) }
{
    let ops = numbers_ops(alloc, numbers.as_slice())?;
    let entry = Entry::Mutation {
        id,
        numbers,
        command,
    };
    let token = append_after(tree, log, alloc, id, place, ops, entry)?;
    Ok(token)
}

/// Appends the entry of the mutation of this id after these operations. Its token, which goes to this place, comes back.
///
/// At an error no memory was left, and tree and log are as they were.
fn append_after(
    tree: &mut Tree,
    log: &mut EntryLog,
    alloc: Global,
    id: u32,
    place: u32,
    ops: Vec<Op>,
    entry: Entry,
) -> Result<Seen<Entry>, AllocError>
    requires in_range { EntryInRange entry }
    requires fine { first_refusal tree.old (ops.items ++ mutation_tail id place entry) 0 ≡ None }
    requires room { length log.old.tokens < length log.old.row }
    ensures tree { OnOk result (tree.new ≡ after_all tree.old (ops.items ++ mutation_tail id place entry)) }
    ensures log { IfOk result (λ token. log.new.tokens ≡ log.old.tokens ++ token ∷ []) }
    ensures token { IfOk result (λ token. token ≡ token_in log.old.row (length log.old.tokens) entry) }
    ensures row { log.new.row ≡ log.old.row }
    ensures err_tree { OnErr result (tree.new ≡ tree.old) }
    ensures err_log { OnErr result (log.new.tokens ≡ log.old.tokens) }
{
    let value = Arc::new(alloc, entry)?;
    let mut ops = ops;
    push_entry(&mut ops, alloc, id, place, &value)?;
    let token = append_value(tree, log, &ops, value)?;
    Ok(token)
}

impl TableTree {
    /// Appends a mutation, which takes a number in every partition that exists. Its entry's token comes back. The command
    /// applies to the blocks of lower number, also to those in flight.
    ///
    /// At an error the table is as it was.
    pub fn create_mutation(
        &mut self,
        alloc: Global,
        command: CheckedMutation,
    ) -> Result<Seen<Entry>, ChangeError>
        requires fits { CommandFits self.old.schema command }
        requires in_range { CommandInRange command }
        ensures token { IfOk result (λ token. token ≡ next_token self.old (Mutation (mutation_count self.old.log) self.old.next command)) }
        ensures creates { OnOk result (CreatesMutation (table_at self.old) command (table_at self.new)) }
        ensures ops { OnOk result (self.new.tree ≡ after_all self.old.tree (mutation_ops entry_bytes command (table_of self.old))) }
        ensures refused { IfErr result (λ e. IfSome (change_cause e)
            (NoMutation (table_at self.old))) }
        ensures err { OnErr result (self.new ≡ self.old) }
        ensures replicas { length self.new.sessions ≡ length self.old.sessions }
        ensures row { self.new.row ≡ self.old.row }
    {
        let numbers = self.mutation_numbers(alloc)?;
        let place = self.log_len();
        let token = append_mutation(
            &mut self.tree,
            &mut self.log,
            alloc,
            self.mutations,
            place,
            numbers,
            command,
        )?;
        self.partitions.take_each();
        self.mutations += 1;
        self.clients += 1;
        Ok(token)
    }

    /// The numbers that a mutation takes, where nothing refuses it.
    fn mutation_numbers(&self, alloc: Global) -> Result<List<(PartitionId, u32)>, ChangeError>
        ensures numbers { IfOk result (λ numbers. numbers ≡ self.now.next) }
        ensures all { OnOk result (mutation_limit self.now.next self.now.log ≡ None) }
        ensures refused { IfErr result (λ e. IfSome (change_cause e)
            (NoMutation (table_at self.now))) }
    {
        if let Some(error) = self.mutation_refusal() {
            return Err(error);
        }
        let numbers = self.partitions.list(alloc)?;
        Ok(numbers)
    }

    /// Why a mutation isn't appended.
    fn mutation_refusal(&self) -> Option<ChangeError>
        ensures { result ≡ option_map (λ l. change.LimitReached l.0 l.1) (mutation_limit self.now.next self.now.log) }
    {
        if self.mutations >= 1024 {
            return Some(ChangeError::LimitReached {
                limit: Limit::Mutations,
                value: u64::from(self.mutations),
            });
        }
        if let Some(number) = self.partitions.first_at(65_536) {
            return Some(ChangeError::LimitReached {
                limit: Limit::Numbers,
                value: u64::from(number),
            });
        }
        if self.clients >= 32_768 {
            return Some(ChangeError::LimitReached {
                limit: Limit::ClientEntries,
                value: u64::from(self.clients),
            });
        }
        None
    }
}
