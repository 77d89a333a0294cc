//! What a client has the workers' work do, turn by turn.
ghost use Rattle.std.specs.Prelude.{◌<◌, true, length, OnErr, OnOk};
ghost use Rattle.rmt_statement_model.specs.Rests.{Runs};
ghost use Rattle.rmt_pass.specs.Passes.{KeepsPass, TakesStep, up_in};

use crate::crew::Crew;
use rmt_outside::Gate;
use rmt_pass::Pass;
use rmt_shared::Naming;
use rmt_values::ReplicaId;
use std::alloc::AllocError;
use std::sync::Wait;

impl<N: Naming> Crew<N> {
    /// Does so many turns of background work at the replicas of the table at a place, one after the other, as `work` does
    /// them: one that isn't there, or is down, has nothing to do.
    ///
    /// At an error no memory was left.
    pub fn run_turns<R: Wait, G: Gate>(
        &self,
        rt: &R,
        pass: &mut Pass<N>,
        table: usize,
        turns: u32,
        gate: &G,
    ) -> Result<(), AllocError>
        requires table { table < length pass.old.tables }
        ensures runs { OnOk result (TakesStep N.offered pass.old table (λ t u. Runs true (up_in pass.old.up) turns t u) pass.new) }
        ensures err { OnErr result (KeepsPass pass.old table pass.new) }
    {
        for turn in 0..turns {
            self.work(rt, table, (turn % 8 + 1) as ReplicaId, gate)?;
        }
        let _guard = self.see(rt, pass, table)?;
        Ok(())
    }
}
