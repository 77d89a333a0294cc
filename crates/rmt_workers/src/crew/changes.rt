//! A client's mutations and drops of partitions.
ghost use Rattle.std.specs.Prelude.{◌≡◌, ◌<◌, length, IfOk, OnErr};
ghost use Rattle.rmt_values.specs.Commands.{CommandFits};
ghost use Rattle.rmt_entries.specs.EntryBytes.{CommandInRange};
ghost use Rattle.rmt_statement_model.specs.ActOutcomes.{DropsOr, MutatesOr};
ghost use Rattle.rmt_shared.specs.SharedTables.{name_at};
ghost use Rattle.rmt_shared.specs.SharedReplicas.{IsNumber};
ghost use Rattle.rmt_pass.specs.Passes.{KeepsPass, TakesStep};

use crate::crew::Crew;
use rmt_names::PartitionId;
use rmt_outside::Gate;
use rmt_pass::Pass;
use rmt_reply::Refusal;
use rmt_shared::Naming;
use rmt_values::{CheckedMutation, ReplicaId};
use std::alloc::AllocError;
use std::sync::Wait;

/// Whether a drop is the newest entry of the log, for this answer.
fn has_dropped(below: &Result<u32, Refusal>) -> bool {
    match below {
        Ok(number) => *number > 0,
        Err(_) => false,
    }
}

impl<N: Naming> Crew<N> {
    /// Makes a mutation in the table at a place, and gives its id; or the refusal, where it would pass a limit.
    ///
    /// At an error no memory was left, and the client may have given up.
    pub fn alter<R: Wait>(
        &self,
        rt: &R,
        pass: &mut Pass<N>,
        table: usize,
        command: CheckedMutation,
    ) -> Result<Result<u32, Refusal>, AllocError>
        requires table { table < length pass.old.tables }
        requires fits { CommandFits (name_at N.tables table).schema command }
        requires in_range { CommandInRange command }
        ensures done { IfOk result (λ made. TakesStep N.offered pass.old table (MutatesOr command made) pass.new) }
        ensures err { OnErr result (KeepsPass pass.old table pass.new) }
    {
        let mut guard = self.see(rt, pass, table)?;
        let tables = &mut *guard;
        let made = pass.alter(self.alloc, tables, table, command)?;
        Ok(made)
    }

    /// Drops the blocks of a partition of the table at a place, which is known at a replica then.
    fn append_drop<R: Wait>(
        &self,
        rt: &R,
        pass: &mut Pass<N>,
        table: usize,
        replica: ReplicaId,
        partition: PartitionId,
    ) -> Result<Result<u32, Refusal>, AllocError>
        requires table { table < length pass.old.tables }
        requires here { IsNumber replica N.replicas }
        ensures done { IfOk result (λ below. TakesStep N.offered pass.old table (DropsOr replica partition below) pass.new) }
        ensures err { OnErr result (KeepsPass pass.old table pass.new) }
    {
        let mut guard = self.see(rt, pass, table)?;
        let tables = &mut *guard;
        let below = pass.drop_partition(self.alloc, tables, table, replica, partition)?;
        Ok(below)
    }

    /// Drops the blocks of a partition of the table at a place, at a replica, which does the drop then. Gives the number
    /// below which they are dropped, 0 where there is no such partition; or the refusal, where the drop would pass a limit.
    ///
    /// At an error no memory was left, and the client may have given up.
    pub fn drop_partition<R: Wait, G: Gate>(
        &self,
        rt: &R,
        pass: &mut Pass<N>,
        table: usize,
        replica: ReplicaId,
        partition: PartitionId,
        gate: &G,
    ) -> Result<Result<u32, Refusal>, AllocError>
        requires table { table < length pass.old.tables }
        requires here { IsNumber replica N.replicas }
        ensures done { IfOk result (λ below. TakesStep N.offered pass.old table (DropsOr replica partition below) pass.new) }
        ensures err { OnErr result (KeepsPass pass.old table pass.new) }
    {
        let below = self.append_drop(rt, pass, table, replica, partition)?;
        if has_dropped(&below) {
            let place = pass.known(table).copy().len().saturating_sub(1);
            self.complete(rt, pass, table, replica, place, gate)?;
        }
        Ok(below)
    }
}
