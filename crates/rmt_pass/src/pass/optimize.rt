//! A client's merges of all live parts of a partition.
ghost use Rattle.std.specs.Prelude.{◌≡◌, ◌<◌, ◌≤◌, ℕ, length, IfErr, IfOk, IfSome, MatchOption, OnErr, OnOk};
ghost use Rattle.std.specs.declared.option.Option.TheVariants.{None};
ghost use Rattle.rmt_names.specs.Names.{Name};
ghost use Rattle.rmt_model.specs.Words.{Has};
ghost use Rattle.rmt_events.specs.TableRefusals.{NotMerged};
ghost use Rattle.rmt_table.specs.Causes.{merge_cause};
ghost use Rattle.rmt_table.specs.TableTrees.{IsCopyOf, table_at};
ghost use Rattle.rmt_table.specs.declared.merge_error.MergeError.TheVariants.{LogMoved};
ghost use Rattle.rmt_statement_model.specs.Optimizes.{live_of};
ghost use Rattle.rmt_shared.specs.ClientCalls.{HasTable};
ghost use Rattle.rmt_pass.specs.Passes.{IsCurrent, KeepsOthers, KeepsPass, TakesStep, client_at};
ghost use Rattle.rmt_pass.specs.MergeSteps.{IsHeldUp, IsLeftApart, MergesAll, OptimizesTo, newest_name as newest_name_of};

use crate::pass::{Pass, take_over};
use rmt_entries::result_of;
use rmt_history::LogCopy;
use rmt_live_names::{Optimized, live_names};
use rmt_names::{PartName, PartitionId};
use rmt_reply::Refusal;
use rmt_shared::{Naming, SharedTables};
use rmt_table::MergeError;
use std::alloc::{AllocError, Global};

/// What becomes of live parts that weren't merged, where they were chosen from the whole log. At an error no memory was left.
fn left_apart(error: MergeError) -> Result<Option<Optimized>, AllocError>
    requires { (seen found : ℕ) → error ≡ LogMoved seen found → ⊥ }
    ensures { IsLeftApart error result }
{
    match error {
        MergeError::Differ { left, right } => {
            Ok(Some(Optimized::Refused(Refusal::Unmergeable { left, right })))
        }
        MergeError::InQuorum { left, right, .. } => {
            Ok(Some(Optimized::Refused(Refusal::Unmergeable { left, right })))
        }
        MergeError::InFlight(_) => Ok(None),
        MergeError::LimitReached { limit, value } => {
            Ok(Some(Optimized::Refused(Refusal::LimitReached { limit, value })))
        }
        MergeError::Memory => Err(AllocError),
        MergeError::LogMoved { .. } => unreachable!(),
    }
}

/// The name that the newest entry of a copy makes.
fn newest_name(copy: &LogCopy) -> Option<PartName>
    ensures { result ≡ newest_name_of copy.now.log }
{
    let count = copy.len();
    if count == 0 {
        return None;
    }
    let token = copy.entry(count - 1)?;
    result_of(token.value())
}

/// Appends a merge of all live names of a partition of a copy, where they are two or more, to the log of the table at a place,
/// whose copy it is. One name alone comes back, and nothing changes then. At an error nothing changes.
fn append_all<N: Naming>(
    alloc: Global,
    tables: &mut SharedTables<N>,
    table: usize,
    copy: &LogCopy,
    partition: PartitionId,
) -> Result<Option<PartName>, MergeError>
    requires table { table < length tables.old }
    requires of { HasTable tables.old table (λ t. IsCopyOf t copy.now) }
    requires some { (a : Name) × Has (live_of copy.now.log partition) a }
    ensures ok { IfOk result (λ one. MergesAll tables.old table copy.now.log partition one tables.new) }
    ensures several { IfErr result (λ e. IfSome (merge_cause e) (λ _. 2 ≤ length (live_of copy.now.log partition))) }
    ensures refused { IfErr result (λ e. IfSome (merge_cause e) (λ why. HasTable tables.old table
        (λ t. NotMerged (table_at t) (length copy.now.log) (live_of copy.now.log partition) why))) }
    ensures err { OnErr result (tables.new ≡ tables.old) }
{
    // The log of a copy is lawful, so that its live names can be merged.
    let _entries = copy.len();
    let sources = live_names(alloc, copy, partition)?;
    if sources.len() == 1 {
        return Ok(Some(sources.as_slice()[0]));
    }
    tables.append_merge(alloc, table, copy, sources.as_slice())?;
    Ok(None)
}

impl<N: Naming> Pass<N> {
    /// Merges all live parts of a partition of the table at a place into one, where there are two or more; or tells why they can't be.
    /// None where an insert under way holds a number among theirs: nothing changes then, and another try may go.
    ///
    /// At an error no memory was left, and the client may know more of the log.
    pub fn merge_live(
        &mut self,
        alloc: Global,
        tables: &mut SharedTables<N>,
        table: usize,
        partition: PartitionId,
    ) -> Result<Option<Optimized>, AllocError>
        requires table { table < length self.old.tables }
        requires current { IsCurrent self.old table tables.old }
        requires some { (a : Name) × Has (live_of (client_at self.old table).log partition) a }
        ensures ok { IfOk result (λ merged. MatchOption merged (self.new ≡ self.old)
            (λ m. TakesStep N.offered self.old table (OptimizesTo partition m) self.new)) }
        ensures none { IfOk result (λ merged. (merged ≡ None) → IsHeldUp tables.old table partition) }
        ensures current { OnOk result (IsCurrent self.new table tables.new) }
        ensures others { KeepsOthers tables.old table tables.new }
        ensures err { OnErr result (KeepsPass self.old table self.new) }
    {
        // That the copy is of the table is known where the table is read.
        tables.table(table).is_sound();
        match append_all(alloc, tables, table, self.tables[table].copy(), partition) {
            Ok(Some(name)) => Ok(Some(Optimized::Name(name))),
            Ok(None) => {
                take_over(alloc, &mut self.tables, tables, table)?;
                let Some(name) = newest_name(self.tables[table].copy()) else {
                    unreachable!()
                };
                Ok(Some(Optimized::Name(name)))
            }
            Err(error) => left_apart(error),
        }
    }
}
