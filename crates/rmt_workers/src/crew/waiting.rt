//! A client waits for a mutation.
ghost use Rattle.std.specs.Prelude.{◌≡◌, ◌<◌, true, length, IfOk, OnErr};
ghost use Rattle.rmt_model.specs.Lawful.{mutation_count};
ghost use Rattle.rmt_statement_model.specs.ActOutcomes.{WaitsOr};
ghost use Rattle.rmt_shared.specs.SharedReplicas.{IsNumber};
ghost use Rattle.rmt_pass.specs.Passes.{KeepsPass, TakesStep, client_at, up_in};
ghost use Rattle.rmt_workers.specs.CrewWaits.{MutatesAll, MutatesSeen};

use crate::crew::Crew;
use rmt_live_names::place_of;
use rmt_outside::Gate;
use rmt_pass::{Mutated, Pass};
use rmt_reply::Refusal;
use rmt_shared::Naming;
use rmt_values::ReplicaId;
use std::alloc::AllocError;
use std::sync::Wait;

impl<N: Naming> Crew<N> {
    /// Mutates the first live part of the table at a place that waits for the mutation of an id, or for one before it. At
    /// an error no memory was left.
    fn mutate_part<R: Wait>(
        &self,
        rt: &R,
        pass: &mut Pass<N>,
        table: usize,
        id: u32,
    ) -> Result<Mutated, AllocError>
        requires table { table < length pass.old.tables }
        requires known { id < mutation_count (client_at pass.old table).log }
        ensures mutates { IfOk result (λ m. MutatesSeen pass.old table id m pass.new) }
        ensures keeps { KeepsPass pass.old table pass.new }
    {
        let mut guard = self.see(rt, pass, table)?;
        let tables = &mut *guard;
        let mutated = pass.mutate_next(self.alloc, tables, table, id)?;
        Ok(mutated)
    }

    /// Mutates such parts one after the other until none waits. Gives the refusal where one entry more would pass a limit.
    /// At an error no memory was left.
    fn mutate_all<R: Wait>(
        &self,
        rt: &R,
        pass: &mut Pass<N>,
        table: usize,
        id: u32,
    ) -> Result<Option<Refusal>, AllocError>
        requires table { table < length pass.old.tables }
        requires known { id < mutation_count (client_at pass.old table).log }
        ensures mutates { IfOk result (λ refused. MutatesAll pass.old table id refused pass.new) }
        ensures keeps { KeepsPass pass.old table pass.new }
    {
        'parts: for _ in rt.forever() {
            match self.mutate_part(rt, pass, table, id)? {
                Mutated::Part => {}
                Mutated::NonePending => return Ok(None),
                Mutated::Refused(why) => return Ok(Some(why)),
            }
        }
        unreachable!()
    }

    /// Waits at a replica until no live part of the table at a place waits for the mutation of an id, or for one before it:
    /// parts that wait are mutated one after the other, the replica brought up to date before and after. Gives the refusal
    /// where the replica lacks a part whose source is down, and which no replica that is up has, or one entry more would
    /// pass a limit; what was mutated stays so.
    ///
    /// At an error no memory was left.
    pub fn wait_mutation<R: Wait, G: Gate>(
        &self,
        rt: &R,
        pass: &mut Pass<N>,
        table: usize,
        replica: ReplicaId,
        id: u32,
        gate: &G,
    ) -> Result<Option<Refusal>, AllocError>
        requires table { table < length pass.old.tables }
        requires here { IsNumber replica N.replicas }
        requires known { id < mutation_count (client_at pass.old table).log }
        ensures waits { IfOk result (λ refused. TakesStep N.offered pass.old table (λ t u. WaitsOr true (up_in pass.old.up) replica id refused t u) pass.new) }
        ensures err { OnErr result (KeepsPass pass.old table pass.new) }
    {
        // Which mutation has the id is known here.
        let _place = place_of(pass.known(table).copy(), id);
        if let Some(lacking) = self.drain(rt, pass, table, replica, gate)? {
            return Ok(Some(lacking));
        }
        let refused = self.mutate_all(rt, pass, table, id)?;
        self.bring_up(rt, pass, table, replica, gate)?;
        Ok(refused)
    }
}
