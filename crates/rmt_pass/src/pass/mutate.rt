//! A client's mutates of the parts that wait for a mutation.
ghost use Rattle.std.specs.Prelude.{◌≡◌, ◌<◌, ℕ, length, IfErr, IfOk, IfSome, OnErr, OnOk};
ghost use Rattle.rmt_model.specs.Lawful.{mutation_count};
ghost use Rattle.rmt_events.specs.TableRefusals.{NotMutated};
ghost use Rattle.rmt_table.specs.Causes.{mutate_cause};
ghost use Rattle.rmt_table.specs.TableTrees.{IsCopyOf, table_at};
ghost use Rattle.rmt_table.specs.declared.mutate_error.MutateError.TheVariants.{LogMoved};
ghost use Rattle.rmt_statement_model.specs.Waits.{SomePending};
ghost use Rattle.rmt_shared.specs.ClientCalls.{HasTable};
ghost use Rattle.rmt_pass.specs.Passes.{IsCurrent, KeepsOthers, KeepsPass, client_at};
ghost use Rattle.rmt_pass.specs.MutateSteps.{AppendsNext, IsLeftWaiting, MutatesNext};

use crate::mutated::Mutated;
use crate::pass::{Pass, take_over};
use rmt_history::LogCopy;
use rmt_live_names::place_of;
use rmt_pick::next_mutation;
use rmt_reply::Refusal;
use rmt_shared::{Naming, SharedTables};
use rmt_table::MutateError;
use std::alloc::{AllocError, Global};

/// What becomes of a part that waits and wasn't mutated, where it was chosen from the whole log. At an error no memory was left.
fn left_waiting(error: MutateError) -> Result<Mutated, AllocError>
    requires { (seen found : ℕ) → error ≡ LogMoved seen found → ⊥ }
    ensures { IsLeftWaiting error result }
{
    match error {
        MutateError::LimitReached { limit, value } => {
            Ok(Mutated::Refused(Refusal::LimitReached { limit, value }))
        }
        MutateError::Memory => Err(AllocError),
        MutateError::LogMoved { .. } => unreachable!(),
    }
}

/// Appends the mutate of the first live part of a copy that waits for a mutation up to the one of an id, up to the last such
/// mutation, to the log of the table at a place, whose copy it is; and tells whether a part waits. At an error nothing changes.
fn append_next<N: Naming>(
    alloc: Global,
    tables: &mut SharedTables<N>,
    table: usize,
    copy: &LogCopy,
    id: u32,
) -> Result<bool, MutateError>
    requires table { table < length tables.old }
    requires of { HasTable tables.old table (λ t. IsCopyOf t copy.now) }
    requires known { id < mutation_count copy.now.log }
    ensures ok { IfOk result (λ waits. AppendsNext tables.old table copy.now.log id waits tables.new) }
    ensures waits { OnErr result (SomePending copy.now.log id) }
    ensures refused { IfErr result (λ e. IfSome (mutate_cause e)
        (λ why. HasTable tables.old table (λ t. NotMutated (table_at t) (length copy.now.log) why))) }
    ensures err { OnErr result (tables.new ≡ tables.old) }
{
    // The log of a copy is lawful, and its length a number.
    let _entries = copy.len();
    let place = place_of(copy, id);
    let Some(found) = next_mutation(copy, place + 1) else {
        return Ok(false);
    };
    let (part, last) = found;
    tables.append_mutate(alloc, table, copy, &part, last)?;
    Ok(true)
}

impl<N: Naming> Pass<N> {
    /// Mutates the first live part of the table at a place that waits for a mutation up to the one of an id: up to the last such
    /// mutation, so that no part is mutated twice for one id. What became of it: it was mutated; none waits; or one entry more would
    /// pass a limit.
    ///
    /// At an error no memory was left, and the client may know more of the log.
    pub fn mutate_next(
        &mut self,
        alloc: Global,
        tables: &mut SharedTables<N>,
        table: usize,
        id: u32,
    ) -> Result<Mutated, AllocError>
        requires table { table < length self.old.tables }
        requires current { IsCurrent self.old table tables.old }
        requires known { id < mutation_count (client_at self.old table).log }
        ensures ok { IfOk result (λ m. MutatesNext id m (client_at self.old table) (client_at self.new table)) }
        ensures keeps { KeepsPass self.old table self.new }
        ensures current { OnOk result (IsCurrent self.new table tables.new) }
        ensures others { KeepsOthers tables.old table tables.new }
    {
        // That the copy is of the table is known where the table is read.
        tables.table(table).is_sound();
        match append_next(alloc, tables, table, self.tables[table].copy(), id) {
            Ok(true) => {
                take_over(alloc, &mut self.tables, tables, table)?;
                Ok(Mutated::Part)
            }
            Ok(false) => Ok(Mutated::NonePending),
            Err(error) => left_waiting(error),
        }
    }
}
