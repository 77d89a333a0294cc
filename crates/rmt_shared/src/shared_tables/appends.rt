//! Entries of background work that a client asks for, from a copy of the whole log.
ghost use Rattle.std.specs.Prelude.{◌≡◌, ◌<◌, length, IfErr, IfSome, OnErr, OnOk};
ghost use Rattle.rmt_events.specs.LogEvents.{AreMergeable, IsMutable};
ghost use Rattle.rmt_events.specs.TableRefusals.{NotMerged, NotMutated};
ghost use Rattle.rmt_table.specs.Causes.{merge_cause, mutate_cause};
ghost use Rattle.rmt_table.specs.TableTrees.{IsCopyOf, table_at};
ghost use Rattle.rmt_shared.specs.SharedTables.{AppendsMerge, AppendsMutate};
ghost use Rattle.rmt_shared.specs.ClientCalls.{HasTable};

use crate::naming::Naming;
use crate::shared_tables::SharedTables;
use rmt_history::LogCopy;
use rmt_names::PartName;
use rmt_table::{MergeError, MutateError};
use std::alloc::Global;

impl<N: Naming> SharedTables<N> {
    /// Appends a merge of these neighbours of a copy to the log of the table at a place, whose copy it is.
    ///
    /// At an error nothing changes. At `LogMoved` choose again from a copy of the whole log.
    pub fn append_merge(
        &mut self,
        alloc: Global,
        table: usize,
        copy: &LogCopy,
        sources: &[PartName],
    ) -> Result<(), MergeError>
        requires table { table < length self.old }
        requires of { HasTable self.old table (λ t. IsCopyOf t copy.now) }
        requires neighbours { AreMergeable copy.now.log sources.now }
        ensures ok { OnOk result (AppendsMerge self.old table sources.now self.new) }
        ensures refused { IfErr result (λ e. IfSome (merge_cause e)
            (λ why. HasTable self.old table (λ t. NotMerged (table_at t) (length copy.now.log) sources.now why))) }
        ensures err { OnErr result (self.new ≡ self.old) }
    {
        let _token = self.tables[table].assign_merge(alloc, copy, sources)?;
        Ok(())
    }

    /// Appends the mutate of a part, for which the mutation at a place of a copy is pending, to the log of the table at a place,
    /// whose copy it is.
    ///
    /// At an error nothing changes. At `LogMoved` choose again from a copy of the whole log.
    pub fn append_mutate(
        &mut self,
        alloc: Global,
        table: usize,
        copy: &LogCopy,
        old: &PartName,
        upto: usize,
    ) -> Result<(), MutateError>
        requires table { table < length self.old }
        requires of { HasTable self.old table (λ t. IsCopyOf t copy.now) }
        requires pending { IsMutable copy.now.log old.now upto }
        ensures ok { OnOk result (AppendsMutate self.old table old.now upto self.new) }
        ensures refused { IfErr result (λ e. IfSome (mutate_cause e)
            (λ why. HasTable self.old table (λ t. NotMutated (table_at t) (length copy.now.log) why))) }
        ensures err { OnErr result (self.new ≡ self.old) }
    {
        let _token = self.tables[table].assign_mutate(alloc, copy, old, upto)?;
        Ok(())
    }
}
