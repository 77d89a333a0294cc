//! A client's mutations.
ghost use Rattle.std.specs.Prelude.{◌≡◌, ◌<◌, length, IfOk, OnErr, OnOk};
ghost use Rattle.rmt_values.specs.Commands.{CommandFits};
ghost use Rattle.rmt_entries.specs.EntryBytes.{CommandInRange};
ghost use Rattle.rmt_statement_model.specs.ActOutcomes.{MutatesOr};
ghost use Rattle.rmt_shared.specs.SharedTables.{name_at};
ghost use Rattle.rmt_pass.specs.Passes.{IsCurrent, KeepsOthers, KeepsPass, TakesStep};

use crate::pass::{Pass, take_over};
use rmt_reply::Refusal;
use rmt_shared::{Naming, SharedTables};
use rmt_table::ChangeError;
use rmt_values::CheckedMutation;
use std::alloc::{AllocError, Global};

impl<N: Naming> Pass<N> {
    /// Makes a mutation in the table at a place, and gives its id; or the refusal, where it would pass a limit.
    ///
    /// At an error no memory was left, and the client may have given up.
    pub fn alter(
        &mut self,
        alloc: Global,
        tables: &mut SharedTables<N>,
        table: usize,
        command: CheckedMutation,
    ) -> Result<Result<u32, Refusal>, AllocError>
        requires table { table < length self.old.tables }
        requires current { IsCurrent self.old table tables.old }
        requires fits { CommandFits (name_at N.tables table).schema command }
        requires in_range { CommandInRange command }
        ensures done { IfOk result (λ made. TakesStep N.offered self.old table (MutatesOr command made) self.new) }
        ensures current { OnOk result (IsCurrent self.new table tables.new) }
        ensures others { KeepsOthers tables.old table tables.new }
        ensures err { OnErr result (KeepsPass self.old table self.new) }
    {
        let id = tables.table(table).mutations();
        match tables.create_mutation(alloc, table, command, &mut self.entries) {
            Ok(()) => {
                self.gave_up = true;
                take_over(alloc, &mut self.tables, tables, table)?;
                self.gave_up = false;
                Ok(Ok(id))
            }
            Err(ChangeError::LimitReached { limit, value }) => {
                Ok(Err(Refusal::LimitReached { limit, value }))
            }
            Err(ChangeError::Memory) => Err(AllocError),
        }
    }
}
