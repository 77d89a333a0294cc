ghost use Rattle.std.specs.Prelude.{◌≡◌, ◌<◌, ◌+◌, length, IfOk, IfErr, IfSome, OnErr, OnOk};
ghost use Rattle.rmt_values.specs.Commands.{CommandFits};
ghost use Rattle.rmt_entries.specs.EntryBytes.{CommandInRange};
ghost use Rattle.rmt_events.specs.TableCalls.{CreatesMutation};
ghost use Rattle.rmt_events.specs.TableRefusals.{NoDrop, NoMutation};
ghost use Rattle.rmt_table.specs.TableTrees.{table_at};
ghost use Rattle.rmt_table.specs.Causes.{change_cause};
ghost use Rattle.rmt_shared.specs.SharedTables.{ChangesTable, name_at};
ghost use Rattle.rmt_shared.specs.ClientCalls.{DropsIn, HasTable, entries_of};

use crate::naming::{ClientEntries, Naming};
use crate::shared_tables::SharedTables;
use rmt_entries::Entry;
use rmt_names::PartitionId;
use rmt_table::ChangeError;
use rmt_values::CheckedMutation;
use std::alloc::Global;
use std::sync::ledger::Share;

impl<N: Naming> SharedTables<N> {
    /// Appends a mutation to the log of the table at a place, which takes a number in every partition that exists there, and
    /// counts its entry to the share.
    ///
    /// At an error nothing changes.
    pub fn create_mutation(
        &mut self,
        alloc: Global,
        table: usize,
        command: CheckedMutation,
        mine: &mut Share<ClientEntries<N>>,
    ) -> Result<(), ChangeError>
        requires table { table < length self.old }
        requires fits { CommandFits (name_at N.tables table).schema command }
        requires in_range { CommandInRange command }
        requires part { 0 < mine.old.parts }
        ensures ok { OnOk result (ChangesTable self.old table
            (λ t u. CreatesMutation (table_at t) command (table_at u)) self.new) }
        ensures counted { OnOk result (mine.new.amount ≡ mine.old.amount + 1) }
        ensures parts { mine.new.parts ≡ mine.old.parts }
        ensures refused { IfErr result (λ e. IfSome (change_cause e)
            (λ why. HasTable self.old table (λ t. NoMutation (table_at t) why))) }
        ensures err { OnErr result (self.new ≡ self.old) }
        ensures err_amount { OnErr result (mine.new.amount ≡ mine.old.amount) }
    {
        self.tables[table].create_mutation(alloc, command)?;
        self.entries.add(mine, 1);
        Ok(())
    }

    /// Drops all parts of a partition of the table at a place, counts the drop's entry to the share, and returns the number below
    /// which the partition's parts are gone; `None` where the partition doesn't exist there.
    ///
    /// At an error nothing changes.
    pub fn drop_partition(
        &mut self,
        alloc: Global,
        table: usize,
        partition: PartitionId,
        mine: &mut Share<ClientEntries<N>>,
    ) -> Result<Option<u32>, ChangeError>
        requires table { table < length self.old }
        requires part { 0 < mine.old.parts }
        ensures ok { IfOk result (λ dropped. DropsIn self.old table partition dropped self.new) }
        ensures counted { IfOk result (λ dropped. mine.new.amount ≡ mine.old.amount + entries_of dropped) }
        ensures parts { mine.new.parts ≡ mine.old.parts }
        ensures refused { IfErr result (λ e. IfSome (change_cause e)
            (λ why. HasTable self.old table (λ t. NoDrop (table_at t) partition why))) }
        ensures err { OnErr result (self.new ≡ self.old) }
        ensures err_amount { OnErr result (mine.new.amount ≡ mine.old.amount) }
    {
        let dropped = self.tables[table].drop_partition(alloc, partition)?;
        let Some(token) = dropped else {
            return Ok(None);
        };
        let Entry::DropRange { number, .. } = token.value() else {
            unreachable!()
        };
        self.entries.add(mine, 1);
        Ok(Some(*number))
    }
}
