use crate::acting::Acting;
use rmt_acts::Insertion;
use rmt_block::Block;
use rmt_cluster::Cluster;
use rmt_live_names::Optimization;
use rmt_names::{PartName, PartitionId};
use rmt_partset::Snapshot;
use rmt_query::Tuple;
use rmt_reply::Refusal;
use rmt_values::{CheckedMutation, CheckedQuery, ReplicaId, Schema};
use std::alloc::{AllocError, Global};

impl Acting for Cluster {
    ghost use Rattle.std.specs.Prelude.{⊤, false};
    ghost use Rattle.rmt_acting.specs.Stepped.{seen_of};

    ghost workers = { false };

    ghost offers = { λ schema b. ⊤ };

    ghost seen = { seen_of };

    fn schema(&self) -> &Schema {
        rmt_acts::schema_of(self)
    }

    fn mutations_made(&self) -> u32 {
        rmt_acts::mutations_made(self)
    }

    fn may_fetch(&self, replica: ReplicaId) -> bool {
        rmt_acts::may_fetch(self, replica)
    }

    fn insert_blocks(
        &mut self,
        alloc: Global,
        replica: ReplicaId,
        blocks: Vec<Block>,
        need: u32,
    ) -> Result<Insertion, AllocError> {
        rmt_acts::insert_blocks(alloc, self, replica, blocks, need)
    }

    fn mutate(
        &mut self,
        alloc: Global,
        command: CheckedMutation,
    ) -> Result<Result<u32, Refusal>, AllocError> {
        rmt_acts::mutate(alloc, self, command)
    }

    fn drop_partition(
        &mut self,
        alloc: Global,
        replica: ReplicaId,
        partition: PartitionId,
    ) -> Result<Result<u32, Refusal>, AllocError> {
        rmt_acts::drop_partition(alloc, self, replica, partition)
    }

    fn optimize(
        &mut self,
        alloc: Global,
        replica: ReplicaId,
        asked: Option<PartitionId>,
    ) -> Result<Optimization, AllocError> {
        rmt_acts::optimize(alloc, self, replica, asked)
    }

    fn wait_for(
        &mut self,
        alloc: Global,
        replica: ReplicaId,
        id: u32,
    ) -> Result<Option<Refusal>, AllocError> {
        rmt_acts::wait_for(alloc, self, replica, id)
    }

    fn sync_replica(
        &mut self,
        alloc: Global,
        replica: ReplicaId,
    ) -> Result<Option<Refusal>, AllocError> {
        rmt_acts::sync_replica(alloc, self, replica)
    }

    fn restart_replica(&mut self, alloc: Global, replica: ReplicaId) -> Result<(), AllocError> {
        rmt_acts::restart_replica(alloc, self, replica)
    }

    fn switch_fetches(
        &mut self,
        alloc: Global,
        replica: ReplicaId,
        allowed: bool,
    ) -> Result<(), AllocError> {
        rmt_acts::switch_fetches(alloc, self, replica, allowed)
    }

    fn run_turns(&mut self, alloc: Global, seed: u32, turns: u32) -> Result<(), AllocError> {
        rmt_acts::run_turns(alloc, self, seed, turns)
    }

    fn read_parts(&mut self, alloc: Global, replica: ReplicaId) -> Result<Snapshot, AllocError> {
        rmt_acts::read_parts(alloc, self, replica)
    }

    fn read_in_quorum(
        &mut self,
        alloc: Global,
        replica: ReplicaId,
    ) -> Result<Result<Snapshot, Refusal>, AllocError> {
        rmt_acts::read_in_quorum(alloc, self, replica)
    }

    fn answer_up_to_date(
        &mut self,
        alloc: Global,
        replica: ReplicaId,
        query: &CheckedQuery,
    ) -> Result<Vec<Tuple>, AllocError> {
        rmt_acts::answer_up_to_date(alloc, self, replica, query)
    }

    fn part_digests(
        &mut self,
        alloc: Global,
        replica: ReplicaId,
    ) -> Result<Vec<(PartName, [u8; 32])>, AllocError> {
        rmt_acts::part_digests(alloc, self, replica)
    }

    fn kill(&mut self, alloc: Global, replica: ReplicaId) -> Result<(), AllocError> {
        rmt_acts::kill(alloc, self, replica)
    }

    fn restart(&mut self, alloc: Global, replica: ReplicaId) -> Result<(), AllocError> {
        rmt_acts::restart(alloc, self, replica)
    }
}
