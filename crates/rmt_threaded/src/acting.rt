//! A table among workers executes acts: each is one call of the crew, or of what takes some.
use crate::access::count_mutations;
use crate::offers::Offers;
use crate::threaded_table::ThreadedTable;
use rmt_acting::Acting;
use rmt_acts::Insertion;
use rmt_block::Block;
use rmt_live_names::Optimization;
use rmt_names::{PartName, PartitionId};
use rmt_outside::Gate;
use rmt_partset::Snapshot;
use rmt_query::Tuple;
use rmt_reply::Refusal;
use rmt_shared::Naming;
use rmt_values::{CheckedMutation, CheckedQuery, ReplicaId, Schema};
use std::alloc::{AllocError, Global};
use std::sync::Wait;

impl<'a, N: Naming, O: Offers, R: Wait, G: Gate> Acting for ThreadedTable<'a, N, O, R, G> {
    ghost use Rattle.std.specs.Prelude.{true};
    ghost use Rattle.rmt_threaded.specs.ThreadedTables.{seen_at};

    ghost workers = { true };

    ghost offers = { O.blocks };

    ghost seen = { seen_at O.blocks N.replicas };

    // ---- what is known of the table

    fn schema(&self) -> &Schema {
        &self.schema
    }

    fn mutations_made(&self) -> u32 {
        count_mutations(self.pass.known(self.table).copy())
    }

    fn may_fetch(&self, replica: ReplicaId) -> bool {
        self.pass.known(self.table).may_fetch(replica)
    }

    // ---- acts that change it

    fn insert_blocks(
        &mut self,
        alloc: Global,
        replica: ReplicaId,
        blocks: Vec<Block>,
        need: u32,
    ) -> Result<Insertion, AllocError> {
        self.access
            .insert_all(alloc, &mut self.pass, self.table, replica, blocks, need)
    }

    fn mutate(
        &mut self,
        alloc: Global,
        command: CheckedMutation,
    ) -> Result<Result<u32, Refusal>, AllocError> {
        self.access
            .crew
            .alter(self.access.rt, &mut self.pass, self.table, command)
    }

    fn drop_partition(
        &mut self,
        alloc: Global,
        replica: ReplicaId,
        partition: PartitionId,
    ) -> Result<Result<u32, Refusal>, AllocError> {
        self.access.crew.drop_partition(
            self.access.rt,
            &mut self.pass,
            self.table,
            replica,
            partition,
            self.access.gate,
        )
    }

    fn optimize(
        &mut self,
        alloc: Global,
        replica: ReplicaId,
        asked: Option<PartitionId>,
    ) -> Result<Optimization, AllocError> {
        self.access.crew.optimize(
            self.access.rt,
            &mut self.pass,
            self.table,
            replica,
            asked,
            self.access.gate,
        )
    }

    fn wait_for(
        &mut self,
        alloc: Global,
        replica: ReplicaId,
        id: u32,
    ) -> Result<Option<Refusal>, AllocError> {
        self.access.crew.wait_mutation(
            self.access.rt,
            &mut self.pass,
            self.table,
            replica,
            id,
            self.access.gate,
        )
    }

    fn sync_replica(
        &mut self,
        alloc: Global,
        replica: ReplicaId,
    ) -> Result<Option<Refusal>, AllocError> {
        self.access.crew.sync(
            self.access.rt,
            &mut self.pass,
            self.table,
            replica,
            self.access.gate,
        )
    }

    fn restart_replica(&mut self, alloc: Global, replica: ReplicaId) -> Result<(), AllocError> {
        self.access
            .crew
            .restart_table(self.access.rt, &self.pass, self.table, replica)
    }

    fn switch_fetches(
        &mut self,
        alloc: Global,
        replica: ReplicaId,
        allowed: bool,
    ) -> Result<(), AllocError> {
        self.access
            .switch(&mut self.pass, self.table, replica, allowed)
    }

    fn run_turns(&mut self, alloc: Global, seed: u32, turns: u32) -> Result<(), AllocError> {
        self.access.crew.run_turns(
            self.access.rt,
            &mut self.pass,
            self.table,
            turns,
            self.access.gate,
        )
    }

    // ---- acts that read it

    fn read_parts(&mut self, alloc: Global, replica: ReplicaId) -> Result<Snapshot, AllocError> {
        self.access.crew.snapshot(
            self.access.rt,
            &mut self.pass,
            self.table,
            replica,
            self.access.gate,
        )
    }

    fn read_in_quorum(
        &mut self,
        alloc: Global,
        replica: ReplicaId,
    ) -> Result<Result<Snapshot, Refusal>, AllocError> {
        self.access.crew.quorum_snapshot(
            self.access.rt,
            &mut self.pass,
            self.table,
            replica,
            self.access.gate,
        )
    }

    fn answer_up_to_date(
        &mut self,
        alloc: Global,
        replica: ReplicaId,
        query: &CheckedQuery,
    ) -> Result<Vec<Tuple>, AllocError> {
        self.access.answer(
            alloc,
            &mut self.pass,
            self.table,
            replica,
            query,
            &self.schema,
        )
    }

    fn part_digests(
        &mut self,
        alloc: Global,
        replica: ReplicaId,
    ) -> Result<Vec<(PartName, [u8; 32])>, AllocError> {
        self.access
            .digests(alloc, &mut self.pass, self.table, replica, &self.schema)
    }

    // ---- sessions

    fn kill(&mut self, alloc: Global, replica: ReplicaId) -> Result<(), AllocError> {
        self.access
            .crew
            .kill(self.access.rt, &mut self.pass, replica);
        Ok(())
    }

    fn restart(&mut self, alloc: Global, replica: ReplicaId) -> Result<(), AllocError> {
        self.access
            .crew
            .restart(self.access.rt, &mut self.pass, replica)
    }
}
