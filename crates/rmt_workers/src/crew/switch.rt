//! Switches of replicas: whether they may fetch, and whether they are up.
ghost use Rattle.std.specs.Prelude.{◌≡◌, ◌<◌, ℕ, false, true, cond, nat_eq, length, OnErr, OnOk};
ghost use Rattle.rmt_statement_model.specs.TableStates.{with_switch};
ghost use Rattle.rmt_shared.specs.SharedReplicas.{IsNumber};
ghost use Rattle.rmt_pass.specs.Passes.{TakesStep, up_in};

use crate::crew::Crew;
use rmt_pass::Pass;
use rmt_shared::Naming;
use rmt_values::ReplicaId;
use std::alloc::AllocError;
use std::sync::Wait;

impl<N: Naming> Crew<N> {
    /// Lets a replica fetch from the table at a place from now on, or stops its fetches. It takes no memory.
    pub fn set_fetches<R: Wait>(
        &self,
        rt: &R,
        pass: &mut Pass<N>,
        table: usize,
        replica: ReplicaId,
        allowed: bool,
    )
        requires table { table < length pass.old.tables }
        requires here { IsNumber replica N.replicas }
        requires goes { pass.old.gave_up ≡ false }
        ensures ok { TakesStep N.offered pass.old table (λ t u. u ≡ with_switch t replica allowed) pass.new }
    {
        let mut guard = self.lock_known(rt, pass, table, replica);
        let here = &mut *guard;
        here.set_fetches(allowed);
        pass.set_fetches(table, replica, allowed);
    }

    /// Opens the session of a replica in the table at a place, where there is such a table. At an error no memory was left.
    fn open_in<R: Wait>(&self, rt: &R, table: usize, replica: ReplicaId) -> Result<(), AllocError>
        requires here { IsNumber replica N.replicas }
    {
        let mut guard = self.tables.lock(rt);
        let tables = &mut *guard;
        if table >= tables.len() {
            return Ok(());
        }
        tables.open_session(self.alloc, table, replica)?;
        Ok(())
    }

    /// Closes the session of a replica in the table at a place, where there is such a table.
    fn close_in<R: Wait>(&self, rt: &R, table: usize, replica: ReplicaId)
        requires here { IsNumber replica N.replicas }
    {
        let mut guard = self.tables.lock(rt);
        let tables = &mut *guard;
        if table >= tables.len() {
            return;
        }
        tables.close_session(table, replica);
    }

    /// Takes a replica of the table at a place down, where it is there: its session ends.
    fn kill_in<R: Wait>(&self, rt: &R, table: usize, replica: ReplicaId)
        requires here { IsNumber replica N.replicas }
    {
        let Some(mut guard) = self.find_replica(rt, table, replica) else {
            return;
        };
        let here = &mut *guard;
        here.kill();
        self.close_in(rt, table, replica);
    }

    /// Takes a replica down in each table.
    fn kill_in_all<R: Wait>(&self, rt: &R, replica: ReplicaId)
        requires here { IsNumber replica N.replicas }
    {
        'tables: for table in 0..self.replicas.len() {
            self.kill_in(rt, table, replica);
        }
    }

    /// Takes a replica down in all tables: its sessions end. It takes no memory.
    pub fn kill<R: Wait>(&self, rt: &R, pass: &mut Pass<N>, replica: ReplicaId)
        requires here { IsNumber replica N.replicas }
        ensures turned { (r : ℕ) → up_in pass.new.up r ≡ cond (nat_eq replica r) false (up_in pass.old.up r) }
        ensures rest { pass.new ≡ record pass.old { up = pass.new.up } }
    {
        self.kill_in_all(rt, replica);
        pass.turn(replica, false);
    }

    /// Brings a replica of the table at a place up, where it is there. At an error no memory was left, and it stays as it was.
    fn restart_in<R: Wait>(
        &self,
        rt: &R,
        table: usize,
        replica: ReplicaId,
    ) -> Result<(), AllocError>
        requires here { IsNumber replica N.replicas }
    {
        let Some(mut guard) = self.find_replica(rt, table, replica) else {
            return Ok(());
        };
        let here = &mut *guard;
        self.open_in(rt, table, replica)?;
        here.restart();
        Ok(())
    }

    /// Brings a replica up in each table. At an error no memory was left, and it may be up in some of them.
    fn restart_in_all<R: Wait>(&self, rt: &R, replica: ReplicaId) -> Result<(), AllocError>
        requires here { IsNumber replica N.replicas }
    {
        'tables: for table in 0..self.replicas.len() {
            self.restart_in(rt, table, replica)?;
        }
        Ok(())
    }

    /// Brings a replica up in all tables. At an error no memory was left, and it may be up in some of them.
    pub fn restart<R: Wait>(
        &self,
        rt: &R,
        pass: &mut Pass<N>,
        replica: ReplicaId,
    ) -> Result<(), AllocError>
        requires here { IsNumber replica N.replicas }
        ensures turned { OnOk result ((r : ℕ) → up_in pass.new.up r ≡ cond (nat_eq replica r) true (up_in pass.old.up r)) }
        ensures rest { OnOk result (pass.new ≡ record pass.old { up = pass.new.up }) }
        ensures err { OnErr result (pass.new ≡ pass.old) }
    {
        self.restart_in_all(rt, replica)?;
        pass.turn(replica, true);
        Ok(())
    }

    /// Begins a replica's session in the table at a place anew: it looks at each entry again.
    ///
    /// At an error no memory was left, and it may have no session there: whoever inserts opens it again.
    pub fn restart_table<R: Wait>(
        &self,
        rt: &R,
        pass: &Pass<N>,
        table: usize,
        replica: ReplicaId,
    ) -> Result<(), AllocError>
        requires table { table < length pass.now.tables }
        requires here { IsNumber replica N.replicas }
    {
        let mut guard = self.lock_known(rt, pass, table, replica);
        let here = &mut *guard;
        here.kill();
        here.restart();
        self.close_in(rt, table, replica);
        self.open_in(rt, table, replica)
    }
}
