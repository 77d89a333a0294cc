ghost use Rattle.std.specs.Prelude.{
  ◌≡◌,
  ◌≢◌,
  ◌<◌,
  ◌^◌,
  ◌∷◌,
  [],
  ℕ,
  Bool,
  true,
  false,
  cond,
  map,
  nat_eq,
  IfOk,
  OnOk,
};
ghost use Rattle.std.specs.List.{All};
ghost use Rattle.rmt_values.specs.Rows.{Shape, fits};
ghost use Rattle.rmt_values.specs.Commands.{CommandFits};
ghost use Rattle.rmt_entries.specs.EntryBytes.{CommandInRange};
ghost use Rattle.rmt_format.specs.PartBytes.{HasPartBytes};
ghost use Rattle.rmt_model.specs.Lawful.{mutation_count};
ghost use Rattle.rmt_query.specs.Answers.{answer_of};
ghost use Rattle.rmt_events.specs.Views.{Block as AnyBlock};
ghost use Rattle.rmt_events.specs.Clusters.{Cluster, without_kinds};
ghost use Rattle.rmt_events.specs.declared.event.Event.TheVariants as ev;
ghost use Rattle.rmt_state.specs.States.{IsNumber};
ghost use Rattle.rmt_cluster.specs.Runs.{RunsAll};
ghost use Rattle.rmt_statement_model.specs.TableStates.{TableState, plain_rows, with_switch};
ghost use Rattle.rmt_statement_model.specs.Rests.{Runs};
ghost use Rattle.rmt_statement_model.specs.Reads.{KnowsAll};
ghost use Rattle.rmt_statement_model.specs.Inserts.{InsertsAll, asked_at};
ghost use Rattle.rmt_statement_model.specs.Optimizes.{OptimizesTable};
ghost use Rattle.rmt_acts.specs.StatementEvents.{
  Makes,
  SyncEvents,
  InsertEvents,
  DropEvents,
  OptimizeEvents,
  WaitEvents,
};
ghost use Rattle.rmt_acts.specs.Checking.{AreDigests};
ghost use Rattle.rmt_acting.specs.Acting.{Sight, MayAct, KeepsShape, GoesOn, Leaves, TurnsReplica, Brings, Stays};
ghost use Rattle.rmt_statement_model.specs.ActOutcomes.{SyncsOr, MutatesOr, DropsOr, WaitsOr, ReadsParts, ReadsQuorum};

use rmt_acts::Insertion;
use rmt_block::Block;
use rmt_live_names::Optimization;
use rmt_names::{PartName, PartitionId};
use rmt_partset::Snapshot;
use rmt_query::Tuple;
use rmt_reply::Refusal;
use rmt_values::{CheckedMutation, CheckedQuery, ReplicaId, Schema};
use std::alloc::{AllocError, Global};

/// What executes acts in a table at its replicas: a cluster, or what has workers beside it. At an error no memory was left: the
/// schema stays, and no replica comes or goes.
pub trait Acting {
    /// Whether workers run beside it.
    ghost workers: { Bool };

    /// Which blocks may be inserted into a table of a schema.
    ghost offers: { Shape → AnyBlock → Type 0 };

    /// What is seen of the table.
    ghost seen: { Self → Sight workers };

    // ---- what is known of the table

    fn schema(&self) -> &Schema
        ensures { result.now ≡ (seen self.now).shape };

    fn mutations_made(&self) -> u32
        ensures { result ≡ (seen self.now).mutations };

    fn may_fetch(&self, replica: ReplicaId) -> bool
        requires { IsNumber replica (seen self.now).count }
        ensures { result ≡ (seen self.now).fetching replica };

    // ---- acts that change it

    /// Inserts blocks at a replica, one after the other, until one is refused.
    fn insert_blocks(
        &mut self,
        alloc: Global,
        replica: ReplicaId,
        blocks: Vec<Block>,
        need: u32,
    ) -> Result<Insertion, AllocError>
        requires here { IsNumber replica (seen self.old).count }
        requires idle { MayAct (seen self.old) replica }
        requires need { need ≢ 1 }
        requires fit { All (λ b. All (λ row. fits (seen self.old).shape.columns row ≡ true) b.rows) blocks.items }
        requires offered { All (λ b. offers (seen self.old).shape (without_kinds b)) blocks.items }
        ensures inserts { IfOk result (λ i. Brings (seen self.old)
            (λ t. InsertsAll workers (seen self.old).ups t (asked_at replica need)
            (map without_kinds blocks.items) i.pieces i.refused) (seen self.new)) }
        ensures events { workers ≡ false → IfOk result (λ i. InsertEvents (seen self.old).cluster
            (asked_at replica need) i.pieces i.refused (seen self.new).cluster) }
        ensures goes_on { OnOk result (GoesOn (seen self.old) (seen self.new)) }
        ensures keeps { KeepsShape (seen self.old) (seen self.new) };

    /// Makes a mutation, and gives its id; or the refusal, where it would pass a limit.
    fn mutate(
        &mut self,
        alloc: Global,
        command: CheckedMutation,
    ) -> Result<Result<u32, Refusal>, AllocError>
        requires free { (seen self.old).free }
        requires fits { CommandFits (seen self.old).shape command }
        requires in_range { CommandInRange command }
        ensures mutates { IfOk result (λ made.
            Brings (seen self.old) (MutatesOr command made) (seen self.new)) }
        ensures events { workers ≡ false → OnOk result
            (Makes (seen self.old).cluster (ev.CreateMutation command ∷ []) (seen self.new).cluster) }
        ensures goes_on { OnOk result (GoesOn (seen self.old) (seen self.new)) }
        ensures keeps { KeepsShape (seen self.old) (seen self.new) };

    /// Drops the blocks of a partition, at a replica; gives the number below which they are dropped, 0 where there is no such
    /// partition; or the refusal, where the drop would pass a limit.
    fn drop_partition(
        &mut self,
        alloc: Global,
        replica: ReplicaId,
        partition: PartitionId,
    ) -> Result<Result<u32, Refusal>, AllocError>
        requires here { IsNumber replica (seen self.old).count }
        requires idle { MayAct (seen self.old) replica }
        ensures drops { IfOk result (λ below.
            Brings (seen self.old) (DropsOr replica partition below) (seen self.new)) }
        ensures events { workers ≡ false → OnOk result
            (DropEvents (seen self.old).cluster replica partition (seen self.new).cluster) }
        ensures goes_on { OnOk result (GoesOn (seen self.old) (seen self.new)) }
        ensures keeps { KeepsShape (seen self.old) (seen self.new) };

    /// Merges all parts of each partition into one, at a replica that may fetch, or of one partition alone.
    fn optimize(
        &mut self,
        alloc: Global,
        replica: ReplicaId,
        asked: Option<PartitionId>,
    ) -> Result<Optimization, AllocError>
        requires here { IsNumber replica (seen self.old).count }
        requires idle { MayAct (seen self.old) replica }
        requires fetches { (seen self.old).fetching replica ≡ true }
        ensures optimizes { IfOk result (λ o. Brings (seen self.old)
            (λ t. OptimizesTable workers (seen self.old).ups t replica asked o.names o.refused)
            (seen self.new)) }
        ensures events { workers ≡ false → IfOk result (λ o.
            OptimizeEvents (seen self.old).cluster replica o.names o.refused (seen self.new).cluster) }
        ensures goes_on { OnOk result (GoesOn (seen self.old) (seen self.new)) }
        ensures keeps { KeepsShape (seen self.old) (seen self.new) };

    /// Waits at a replica that may fetch until no part waits for the mutation of an id.
    fn wait_for(
        &mut self,
        alloc: Global,
        replica: ReplicaId,
        id: u32,
    ) -> Result<Option<Refusal>, AllocError>
        requires here { IsNumber replica (seen self.old).count }
        requires idle { MayAct (seen self.old) replica }
        requires fetches { (seen self.old).fetching replica ≡ true }
        requires known { id < (seen self.old).mutations }
        ensures waits { IfOk result (λ refused. Brings (seen self.old)
            (WaitsOr workers (seen self.old).ups replica id refused) (seen self.new)) }
        ensures events { workers ≡ false → IfOk result (λ refused.
            WaitEvents (seen self.old).cluster replica refused (seen self.new).cluster) }
        ensures goes_on { OnOk result (GoesOn (seen self.old) (seen self.new)) }
        ensures keeps { KeepsShape (seen self.old) (seen self.new) };

    /// Brings a replica up to date that may fetch, or tells which part it lacks.
    fn sync_replica(
        &mut self,
        alloc: Global,
        replica: ReplicaId,
    ) -> Result<Option<Refusal>, AllocError>
        requires here { IsNumber replica (seen self.old).count }
        requires idle { MayAct (seen self.old) replica }
        requires fetches { (seen self.old).fetching replica ≡ true }
        ensures syncs { IfOk result (λ refused. Brings (seen self.old)
            (SyncsOr (seen self.old).ups replica refused) (seen self.new)) }
        ensures events { workers ≡ false → IfOk result (λ refused.
            SyncEvents (seen self.old).cluster replica refused (seen self.new).cluster) }
        ensures goes_on { OnOk result (GoesOn (seen self.old) (seen self.new)) }
        ensures keeps { KeepsShape (seen self.old) (seen self.new) };

    /// Begins a replica's session anew.
    fn restart_replica(&mut self, alloc: Global, replica: ReplicaId) -> Result<(), AllocError>
        requires here { IsNumber replica (seen self.old).count }
        requires idle { MayAct (seen self.old) replica }
        ensures restarts { OnOk result
            (Brings (seen self.old) (λ t u. u ≡ t) (seen self.new)) }
        ensures events { workers ≡ false → OnOk result (Makes (seen self.old).cluster
            (ev.Kill replica ∷ ev.Restart replica ∷ []) (seen self.new).cluster) }
        ensures goes_on { OnOk result (GoesOn (seen self.old) (seen self.new)) }
        ensures keeps { KeepsShape (seen self.old) (seen self.new) };

    /// Lets a replica fetch from now on, or stops its fetches.
    fn switch_fetches(
        &mut self,
        alloc: Global,
        replica: ReplicaId,
        allowed: bool,
    ) -> Result<(), AllocError>
        requires here { IsNumber replica (seen self.old).count }
        requires idle { MayAct (seen self.old) replica }
        ensures switches { OnOk result (Brings (seen self.old)
            (λ t u. u ≡ with_switch t replica allowed) (seen self.new)) }
        ensures events { workers ≡ false → OnOk result
            (Makes (seen self.old).cluster (ev.Fetches replica allowed ∷ []) (seen self.new).cluster) }
        ensures goes_on { OnOk result (GoesOn (seen self.old) (seen self.new)) }
        ensures keeps { KeepsShape (seen self.old) (seen self.new) };

    /// Does so many turns of background work, as the seed draws them.
    fn run_turns(&mut self, alloc: Global, seed: u32, turns: u32) -> Result<(), AllocError>
        requires seed { seed < 2 ^ 31 }
        requires free { (seen self.old).free }
        ensures runs { OnOk result
            (Brings (seen self.old) (Runs workers (seen self.old).ups turns) (seen self.new)) }
        ensures events { workers ≡ false → OnOk result
            (RunsAll (seen self.old).cluster seed turns (seen self.new).cluster) }
        ensures goes_on { OnOk result (GoesOn (seen self.old) (seen self.new)) }
        ensures keeps { KeepsShape (seen self.old) (seen self.new) };

    // ---- acts that read it

    /// The active parts of a replica.
    fn read_parts(&mut self, alloc: Global, replica: ReplicaId) -> Result<Snapshot, AllocError>
        requires here { IsNumber replica (seen self.old).count }
        requires up { (seen self.old).ups replica ≡ true }
        ensures reads { IfOk result (λ parts.
            Brings (seen self.old) (ReadsParts replica parts) (seen self.new)) }
        ensures keys { IfOk result (All (λ part. part.rows.key ≡ (seen self.old).shape.key)) }
        ensures bytes { IfOk result (All (λ part. HasPartBytes (seen self.old).shape part.rows)) }
        ensures leaves { Leaves (seen self.old) (seen self.new) }
        ensures keeps { KeepsShape (seen self.old) (seen self.new) };

    /// Those of a replica's active parts that are in a quorum, or why none are read.
    fn read_in_quorum(
        &mut self,
        alloc: Global,
        replica: ReplicaId,
    ) -> Result<Result<Snapshot, Refusal>, AllocError>
        requires here { IsNumber replica (seen self.old).count }
        requires up { (seen self.old).ups replica ≡ true }
        ensures reads { IfOk result (λ found.
            Brings (seen self.old) (ReadsQuorum replica found) (seen self.new)) }
        ensures keys { IfOk result (λ found. IfOk found (All (λ part. part.rows.key ≡ (seen self.old).shape.key))) }
        ensures leaves { Leaves (seen self.old) (seen self.new) }
        ensures keeps { KeepsShape (seen self.old) (seen self.new) };

    /// What a query answers at a replica where every place of the log is known. Workers may go on meanwhile.
    fn answer_up_to_date(
        &mut self,
        alloc: Global,
        replica: ReplicaId,
        query: &CheckedQuery,
    ) -> Result<Vec<Tuple>, AllocError>
        requires here { IsNumber replica (seen self.old).count }
        requires up { (seen self.old).ups replica ≡ true }
        ensures answers { IfOk result (λ tuples. (t : TableState) → (seen self.old).shows t → KnowsAll t replica
            → tuples.items ≡ answer_of t.schema query.now (plain_rows t)) }
        ensures shown { OnOk result (Stays (seen self.old) (seen self.new)) }
        ensures leaves { Leaves (seen self.old) (seen self.new) }
        ensures keeps { KeepsShape (seen self.old) (seen self.new) };

    /// The digests of a replica's active parts.
    fn part_digests(
        &mut self,
        alloc: Global,
        replica: ReplicaId,
    ) -> Result<Vec<(PartName, [u8; 32])>, AllocError>
        requires here { IsNumber replica (seen self.old).count }
        requires up { (seen self.old).ups replica ≡ true }
        ensures digests { IfOk result (λ all. Brings (seen self.old)
            (λ t. AreDigests t replica all.items) (seen self.new)) }
        ensures leaves { Leaves (seen self.old) (seen self.new) }
        ensures keeps { KeepsShape (seen self.old) (seen self.new) };

    // ---- sessions

    /// Ends a replica's session.
    fn kill(&mut self, alloc: Global, replica: ReplicaId) -> Result<(), AllocError>
        requires { IsNumber replica (seen self.old).count }
        ensures shown { OnOk result (Stays (seen self.old) (seen self.new)) }
        ensures events { workers ≡ false → OnOk result
            (Makes (seen self.old).cluster (ev.Kill replica ∷ []) (seen self.new).cluster) }
        ensures turns { OnOk result (TurnsReplica replica false (seen self.old) (seen self.new)) }
        ensures keeps { KeepsShape (seen self.old) (seen self.new) };

    /// Begins a session of a replica that has none.
    fn restart(&mut self, alloc: Global, replica: ReplicaId) -> Result<(), AllocError>
        requires { IsNumber replica (seen self.old).count }
        ensures shown { OnOk result (Stays (seen self.old) (seen self.new)) }
        ensures events { workers ≡ false → OnOk result
            (Makes (seen self.old).cluster (ev.Restart replica ∷ []) (seen self.new).cluster) }
        ensures turns { OnOk result (TurnsReplica replica true (seen self.old) (seen self.new)) }
        ensures keeps { KeepsShape (seen self.old) (seen self.new) };
}
