//! The entries of clients that change a table: mutations, and drops of partitions.
ghost use Rattle.std.specs.Prelude.{◌≡◌, IfOk, OnErr};
ghost use Rattle.rmt_values.specs.Commands.{CommandFits};
ghost use Rattle.rmt_entries.specs.EntryBytes.{CommandInRange};
ghost use Rattle.rmt_events.specs.declared.event.Event.TheVariants as ev;
ghost use Rattle.rmt_state.specs.States.{Acts};

use crate::state::State;
use rmt_events::{Reply, StepRefused};
use rmt_names::PartitionId;
use rmt_table::ChangeError;
use rmt_values::CheckedMutation;
use std::alloc::{AllocError, Global};

impl State {
    /// A command takes a number in each partition. At an error no memory was left, and nothing changed.
    pub fn create_mutation(
        &mut self,
        alloc: Global,
        command: CheckedMutation,
    ) -> Result<Reply, AllocError>
        requires fits { CommandFits self.old.tree.schema command }
        requires in_range { CommandInRange command }
        ensures ok { IfOk result (λ reply. Acts self.old (ev.CreateMutation command) reply self.new) }
        ensures err { OnErr result (self.new ≡ self.old) }
    {
        let place = self.tree.log_len();
        match self.tree.create_mutation(alloc, command) {
            Ok(_) => Ok(Reply::Entry(place)),
            Err(ChangeError::LimitReached { limit, value }) => {
                Ok(Reply::Refused(StepRefused::LimitReached { limit, value }))
            }
            Err(ChangeError::Memory) => Err(AllocError),
        }
    }

    /// The blocks of a partition are dropped. At an error no memory was left, and nothing changed.
    pub fn drop_partition(
        &mut self,
        alloc: Global,
        partition: PartitionId,
    ) -> Result<Reply, AllocError>
        ensures ok { IfOk result (λ reply. Acts self.old (ev.DropPartition partition) reply self.new) }
        ensures err { OnErr result (self.new ≡ self.old) }
    {
        let place = self.tree.log_len();
        match self.tree.drop_partition(alloc, partition) {
            Ok(Some(_)) => Ok(Reply::Entry(place)),
            Ok(None) => Ok(Reply::Done),
            Err(ChangeError::LimitReached { limit, value }) => {
                Ok(Reply::Refused(StepRefused::LimitReached { limit, value }))
            }
            Err(ChangeError::Memory) => Err(AllocError),
        }
    }
}
