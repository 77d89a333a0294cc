//! Switches of replicas: whether they may fetch, and whether they are up.
ghost use Rattle.std.specs.Prelude.{◌≡◌, ◌<◌, ℕ, List, false, cond, nat_eq, length, OnErr, OnOk};
ghost use Rattle.rmt_table_model.specs.Held.{Held};
ghost use Rattle.rmt_statement_model.specs.TableStates.{with_switch};
ghost use Rattle.rmt_shared.specs.SharedTables.{ChangesTable};
ghost use Rattle.rmt_shared.specs.SharedReplicas.{IsNumber};
ghost use Rattle.rmt_shared.specs.ClientCalls.{HasTable};
ghost use Rattle.rmt_pass.specs.Passes.{IsCurrent, KeepsOthers, TakesStep, up_in};
ghost use Rattle.rmt_pass.specs.InsertSteps.{AreOpen};
ghost use Rattle.rmt_pass.specs.DrainSteps.{SetsSession};

use crate::pass::Pass;
use rmt_shared::{Naming, SharedTables};
use rmt_values::ReplicaId;
use std::alloc::{AllocError, Global};

/// Opens the session of a replica of the table at a place where it is up and has none, and closes it where it is down and has one.
/// At an error no memory was left.
fn set_session<N: Naming>(
    alloc: Global,
    tables: &mut SharedTables<N>,
    table: usize,
    replica: ReplicaId,
    is_up: bool,
) -> Result<(), AllocError>
    requires table { table < length tables.old }
    requires here { IsNumber replica N.replicas }
    ensures ok { OnOk result (ChangesTable tables.old table (λ t u. SetsSession t replica is_up u) tables.new) }
    ensures err { OnErr result (tables.new ≡ tables.old) }
{
    if tables.is_open(table, replica) == is_up {
        return Ok(());
    }
    if is_up {
        tables.open_session(alloc, table, replica)?;
    } else {
        tables.close_session(table, replica);
    }
    Ok(())
}

impl<N: Naming> Pass<N> {
    /// Lets a replica fetch from the table at a place from now on, or stops its fetches.
    pub fn set_fetches(&mut self, table: usize, replica: ReplicaId, allowed: bool)
        requires table { table < length self.old.tables }
        requires goes { self.old.gave_up ≡ false }
        requires here { IsNumber replica N.replicas }
        ensures ok { TakesStep N.offered self.old table (λ t u. u ≡ with_switch t replica allowed) self.new }
        ensures seen { (ts : List Held) → IsCurrent self.old table ts → IsCurrent self.new table ts }
    {
        self.tables[table].set_fetches(replica, allowed);
    }

    /// Notes that a replica is up from now on, or down. It takes no memory.
    pub fn turn(&mut self, replica: ReplicaId, is_up: bool)
        requires here { IsNumber replica N.replicas }
        ensures turned { (r : ℕ) → up_in self.new.up r ≡ cond (nat_eq replica r) is_up (up_in self.old.up r) }
        ensures rest { self.new ≡ record self.old { up = self.new.up } }
    {
        self.up[usize::from(replica) - 1] = is_up;
    }

    /// Sees that just the replicas that are up have a session in the table at a place: opens and closes what is otherwise.
    ///
    /// At an error no memory was left.
    pub fn open_sessions(
        &self,
        alloc: Global,
        tables: &mut SharedTables<N>,
        table: usize,
    ) -> Result<(), AllocError>
        requires table { table < length self.now.tables }
        requires current { IsCurrent self.now table tables.old }
        ensures ok { OnOk result (HasTable tables.new table (AreOpen (up_in self.now.up))) }
        ensures current { IsCurrent self.now table tables.new }
        ensures others { KeepsOthers tables.old table tables.new }
    {
        // A table has at most 8 replicas, before the calls and after them.
        tables.table(table).no_limit_is_passed();
        let end = self.up.len() as u8 + 1;
        'replicas: for replica in 1..end {
            set_session(alloc, tables, table, replica, self.is_up(replica))?;
        }
        tables.table(table).no_limit_is_passed();
        Ok(())
    }
}
