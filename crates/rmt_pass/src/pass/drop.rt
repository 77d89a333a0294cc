//! A client's drops of partitions.
ghost use Rattle.std.specs.Prelude.{◌≡◌, ◌<◌, length, IfOk, OnErr, OnOk};
ghost use Rattle.rmt_statement_model.specs.ActOutcomes.{DropsOr};
ghost use Rattle.rmt_shared.specs.SharedReplicas.{IsNumber};
ghost use Rattle.rmt_pass.specs.Passes.{IsCurrent, KeepsOthers, KeepsPass, TakesStep};

use crate::pass::{Pass, take_over};
use rmt_names::PartitionId;
use rmt_reply::Refusal;
use rmt_shared::{Naming, SharedTables};
use rmt_table::ChangeError;
use rmt_values::ReplicaId;
use std::alloc::{AllocError, Global};

impl<N: Naming> Pass<N> {
    /// Drops the blocks of a partition of the table at a place, which is known at a replica then. Gives the number below which they
    /// are dropped, 0 where there is no such partition; or the refusal, where the drop would pass a limit.
    ///
    /// At an error no memory was left, and the client may have given up.
    pub fn drop_partition(
        &mut self,
        alloc: Global,
        tables: &mut SharedTables<N>,
        table: usize,
        replica: ReplicaId,
        partition: PartitionId,
    ) -> Result<Result<u32, Refusal>, AllocError>
        requires table { table < length self.old.tables }
        requires current { IsCurrent self.old table tables.old }
        requires here { IsNumber replica N.replicas }
        ensures done { IfOk result (λ below. TakesStep N.offered self.old table (DropsOr replica partition below) self.new) }
        ensures current { OnOk result (IsCurrent self.new table tables.new) }
        ensures others { KeepsOthers tables.old table tables.new }
        ensures err { OnErr result (KeepsPass self.old table self.new) }
    {
        let place = tables.table(table).log_len() as usize;
        match tables.drop_partition(alloc, table, partition, &mut self.entries) {
            Ok(None) => Ok(Ok(0)),
            Ok(Some(below)) => {
                self.gave_up = true;
                take_over(alloc, &mut self.tables, tables, table)?;
                self.tables[table].learn(replica, place)?;
                self.gave_up = false;
                Ok(Ok(below))
            }
            Err(ChangeError::LimitReached { limit, value }) => {
                Ok(Err(Refusal::LimitReached { limit, value }))
            }
            Err(ChangeError::Memory) => Err(AllocError),
        }
    }
}
