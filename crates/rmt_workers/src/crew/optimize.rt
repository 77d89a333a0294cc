//! A client's OPTIMIZE: partition by partition, the replica brought up to date first and after each.
ghost use Rattle.std.specs.Prelude.{◌≡◌, ◌<◌, true, IsTrue, length, IfOk, MatchOption, OnErr, OnOk};
ghost use Rattle.rmt_names.specs.Names.{Name};
ghost use Rattle.rmt_model.specs.Words.{Has};
ghost use Rattle.rmt_statement_model.specs.Optimizes.{live_of, OptimizesTable};
ghost use Rattle.rmt_shared.specs.SharedReplicas.{IsNumber};
ghost use Rattle.rmt_pass.specs.MergeSteps.{OptimizesTo};
ghost use Rattle.rmt_pass.specs.Passes.{KeepsPass, TakesStep, up_in};
ghost use Rattle.rmt_workers.specs.Crews.{Saw};
ghost use Rattle.rmt_workers.specs.CrewInserts.{TakesInto};
ghost use Rattle.rmt_workers.specs.CrewOptimizes.{OptimizesOne};

use crate::crew::Crew;
use rmt_history::LogCopy;
use rmt_list::List;
use rmt_live_names::{Optimization, Optimized, live_names, partitions};
use rmt_names::PartitionId;
use rmt_outside::Gate;
use rmt_pass::Pass;
use rmt_shared::Naming;
use rmt_values::ReplicaId;
use std::alloc::{AllocError, Global};
use std::sync::Wait;

/// Whether a partition has a live name. At an error no memory was left.
fn has_live(alloc: Global, copy: &LogCopy, partition: PartitionId) -> Result<bool, AllocError>
    ensures { IfOk result (λ some. IsTrue some → (a : Name) × Has (live_of copy.now.log partition) a) }
{
    let names = live_names(alloc, copy, partition)?;
    Ok(names.len() != 0)
}

impl<N: Naming> Crew<N> {
    /// Merges all live parts of a partition into one, where it has some and no insert under way holds a number among
    /// theirs. At an error no memory was left.
    fn try_merge<R: Wait>(
        &self,
        rt: &R,
        pass: &mut Pass<N>,
        table: usize,
        partition: PartitionId,
    ) -> Result<Option<Optimized>, AllocError>
        requires table { table < length pass.old.tables }
        ensures merges { IfOk result (λ merged. MatchOption merged (Saw pass.old table pass.new)
            (λ m. TakesStep N.offered pass.old table (OptimizesTo partition m) pass.new)) }
        ensures err { OnErr result (KeepsPass pass.old table pass.new) }
    {
        let mut guard = self.see(rt, pass, table)?;
        let tables = &mut *guard;
        if !has_live(self.alloc, pass.known(table).copy(), partition)? {
            return Ok(None);
        }
        let merged = pass.merge_live(self.alloc, tables, table, partition)?;
        Ok(merged)
    }

    /// Merges all live parts of a partition into one, or tells why they can't be. At an error no memory was left.
    fn merge<R: Wait>(
        &self,
        rt: &R,
        pass: &mut Pass<N>,
        table: usize,
        partition: PartitionId,
    ) -> Result<Optimized, AllocError>
        requires table { table < length pass.old.tables }
        ensures merges { IfOk result (λ m. TakesStep N.offered pass.old table (OptimizesTo partition m) pass.new) }
        ensures err { OnErr result (KeepsPass pass.old table pass.new) }
    {
        'tries: for _ in rt.forever() {
            if let Some(merged) = self.try_merge(rt, pass, table, partition)? {
                return Ok(merged);
            }
        }
        unreachable!()
    }

    /// Merges all live parts of a partition into one, and brings the replica up to date then. At an error no memory was left.
    fn optimize_partition<R: Wait, G: Gate>(
        &self,
        rt: &R,
        pass: &mut Pass<N>,
        table: usize,
        replica: ReplicaId,
        partition: PartitionId,
        gate: &G,
    ) -> Result<Optimized, AllocError>
        requires table { table < length pass.old.tables }
        requires here { IsNumber replica N.replicas }
        ensures ok { IfOk result (λ o. TakesInto N.offered pass.old table (OptimizesOne replica partition o) pass.new) }
        ensures err { OnErr result (KeepsPass pass.old table pass.new) }
    {
        match self.merge(rt, pass, table, partition)? {
            Optimized::Name(name) => {
                self.bring_up(rt, pass, table, replica, gate)?;
                Ok(Optimized::Name(name))
            }
            Optimized::Refused(refusal) => Ok(Optimized::Refused(refusal)),
        }
    }

    /// Merges all parts of each partition of the table at a place into one, at a replica, which is brought up to date first
    /// and after each merge; or of one partition alone. It ends at the first partition whose parts can't be merged, or
    /// before all where the replica lacks a part whose source is down; what was merged stays so.
    ///
    /// At an error no memory was left, and what was done stays done.
    pub fn optimize<R: Wait, G: Gate>(
        &self,
        rt: &R,
        pass: &mut Pass<N>,
        table: usize,
        replica: ReplicaId,
        asked: Option<PartitionId>,
        gate: &G,
    ) -> Result<Optimization, AllocError>
        requires table { table < length pass.old.tables }
        requires here { IsNumber replica N.replicas }
        ensures optimizes { IfOk result (λ o. TakesStep N.offered pass.old table
            (λ t u. OptimizesTable true (up_in pass.old.up) t replica asked o.names o.refused u) pass.new) }
        ensures err { OnErr result (KeepsPass pass.old table pass.new) }
    {
        if let Some(refusal) = self.sync(rt, pass, table, replica, gate)? {
            let (names, refused) = (List::empty(self.alloc), Some(refusal));
            return Ok(Optimization { names, refused });
        }
        let all = partitions(self.alloc, pass.known(table).copy(), asked)?;
        let mut names = Vec::new(self.alloc);
        'partitions: for partition in &all {
            match self.optimize_partition(rt, pass, table, replica, *partition, gate)? {
                Optimized::Name(name) => names.push(name)?,
                Optimized::Refused(refusal) => {
                    let (names, refused) = (List::new(names), Some(refusal));
                    return Ok(Optimization { names, refused });
                }
            }
        }
        let (names, refused) = (List::new(names), None);
        Ok(Optimization { names, refused })
    }
}
