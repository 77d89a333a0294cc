//! A replica is brought up to date with its table's log.
ghost use Rattle.std.specs.Prelude.{◌≡◌, ◌<◌, false, length, IfOk, IsTrue, MatchBool, MatchOption, OnErr, OnOk};
ghost use Rattle.rmt_statement_model.specs.TableStates.{synced};
ghost use Rattle.rmt_statement_model.specs.LostSources.{LacksSource};
ghost use Rattle.rmt_statement_model.specs.ActOutcomes.{SyncsOr};
ghost use Rattle.rmt_shared.specs.SharedTables.{log_in, views_of};
ghost use Rattle.rmt_shared.specs.SharedReplicas.{IsNumber};
ghost use Rattle.rmt_pass.specs.Passes.{KeepsPass, TakesStep, up_in};
ghost use Rattle.rmt_workers.specs.Crews.{HasDoneAll, Saw};

use crate::crew::Crew;
use rmt_outside::Gate;
use rmt_pass::Pass;
use rmt_replica::ReplicaError;
use rmt_reply::Refusal;
use rmt_shared::{Naming, SharedReplica, SharedTables};
use rmt_values::ReplicaId;
use std::alloc::{AllocError, Global};
use std::sync::Wait;

/// Brings a replica's copy of its table's log to the log's length, and tells whether the replica has done all of it. At an
/// error no memory was left.
fn has_done_all<N: Naming>(
    alloc: Global,
    here: &mut SharedReplica<N>,
    tables: &mut SharedTables<N>,
) -> Result<bool, AllocError>
    requires table { here.old.table < length tables.old }
    ensures done { IfOk result (λ all. IsTrue all → HasDoneAll here.new.replica (log_in tables.old here.old.table)) }
    ensures seen { views_of tables.new ≡ views_of tables.old }
{
    if let Err(ReplicaError::Memory) = here.pull(alloc, tables) {
        return Err(AllocError);
    }
    if !here.replica().drained() {
        return Ok(false);
    }
    Ok(here.replica().copy().len() == tables.log_len(here.table()) as usize)
}

impl<N: Naming> Crew<N> {
    /// Tells whether a replica has done all of its table's log, as the client sees it: then it is known to be up to date.
    /// At an error no memory was left.
    pub(crate) fn look<R: Wait>(
        &self,
        rt: &R,
        pass: &mut Pass<N>,
        table: usize,
        replica: ReplicaId,
    ) -> Result<bool, AllocError>
        requires table { table < length pass.old.tables }
        requires here { IsNumber replica N.replicas }
        ensures looks { IfOk result (λ caught. MatchBool caught
            (TakesStep N.offered pass.old table (λ t u. u ≡ synced replica t) pass.new)
            (Saw pass.old table pass.new)) }
        ensures err { OnErr result (KeepsPass pass.old table pass.new) }
    {
        let mut guard = self.lock_known(rt, pass, table, replica);
        let here = &mut *guard;
        let mut tables_guard = self.see(rt, pass, table)?;
        let tables = &mut *tables_guard;
        if !has_done_all(self.alloc, here, tables)? {
            return Ok(false);
        }
        pass.catch_up(self.alloc, tables, table, replica)?;
        Ok(true)
    }

    /// Tells the same, and that isn't known then. At an error no memory was left.
    fn has_caught_up<R: Wait>(
        &self,
        rt: &R,
        pass: &mut Pass<N>,
        table: usize,
        replica: ReplicaId,
    ) -> Result<bool, AllocError>
        requires table { table < length pass.old.tables }
        ensures saw { OnOk result (Saw pass.old table pass.new) }
        ensures err { OnErr result (KeepsPass pass.old table pass.new) }
    {
        let mut guard = self.lock_known(rt, pass, table, replica);
        let here = &mut *guard;
        let mut tables_guard = self.see(rt, pass, table)?;
        let tables = &mut *tables_guard;
        let has_done = has_done_all(self.alloc, here, tables)?;
        Ok(has_done)
    }

    /// Has a replica do the first entry that it hasn't done, where there is one. Gives the refusal where it lacks the part
    /// of that entry, whose source is down, and which no replica that is up has. At an error no memory was left.
    fn advance<R: Wait, G: Gate>(
        &self,
        rt: &R,
        pass: &mut Pass<N>,
        table: usize,
        replica: ReplicaId,
        gate: &G,
    ) -> Result<Option<Refusal>, AllocError>
        requires table { table < length pass.old.tables }
        requires goes { pass.old.gave_up ≡ false }
        requires here { IsNumber replica N.replicas }
        ensures ok { IfOk result (λ refused. MatchOption refused (pass.new ≡ pass.old)
            (λ why. TakesStep N.offered pass.old table (λ t u. LacksSource (up_in pass.old.up) t replica why u) pass.new)) }
        ensures err { OnErr result (pass.new ≡ pass.old) }
    {
        let Some(needed) = self.take_first(rt, pass, table, replica)? else {
            return Ok(None);
        };
        let place = needed.place;
        if self.do_entry(rt, table, replica, needed, gate)? {
            return Ok(None);
        }
        pass.lose(table, replica, place)
    }

    /// Brings a replica of the table at a place up to date: it does every entry of the log. Gives the refusal where it
    /// lacks a part whose source is down, and which no replica that is up has: what comes before it in the log is known at
    /// the replica then.
    ///
    /// At an error no memory was left.
    pub fn sync<R: Wait, G: Gate>(
        &self,
        rt: &R,
        pass: &mut Pass<N>,
        table: usize,
        replica: ReplicaId,
        gate: &G,
    ) -> Result<Option<Refusal>, AllocError>
        requires table { table < length pass.old.tables }
        requires here { IsNumber replica N.replicas }
        ensures syncs { IfOk result (λ refused. TakesStep N.offered pass.old table (SyncsOr (up_in pass.old.up) replica refused) pass.new) }
        ensures err { OnErr result (KeepsPass pass.old table pass.new) }
    {
        'tries: for _ in rt.forever() {
            if self.look(rt, pass, table, replica)? {
                return Ok(None);
            }
            if let Some(refusal) = self.advance(rt, pass, table, replica, gate)? {
                return Ok(Some(refusal));
            }
        }
        unreachable!()
    }

    /// Has a replica do every entry of the log, as `sync` does, where what comes of it isn't known then. Gives the refusal
    /// where it lacks a part: what comes before that in the log is known at the replica then. At an error no memory was
    /// left.
    pub(crate) fn drain<R: Wait, G: Gate>(
        &self,
        rt: &R,
        pass: &mut Pass<N>,
        table: usize,
        replica: ReplicaId,
        gate: &G,
    ) -> Result<Option<Refusal>, AllocError>
        requires table { table < length pass.old.tables }
        requires here { IsNumber replica N.replicas }
        ensures drains { IfOk result (λ refused. MatchOption refused (Saw pass.old table pass.new)
            (λ why. TakesStep N.offered pass.old table (λ t u. LacksSource (up_in pass.old.up) t replica why u) pass.new)) }
        ensures err { OnErr result (KeepsPass pass.old table pass.new) }
    {
        'tries: for _ in rt.forever() {
            if self.has_caught_up(rt, pass, table, replica)? {
                return Ok(None);
            }
            if let Some(refusal) = self.advance(rt, pass, table, replica, gate)? {
                return Ok(Some(refusal));
            }
        }
        unreachable!()
    }

    /// Brings a replica up to date as `sync` does, where none of its parts is lacking. At an error no memory was left.
    pub(crate) fn bring_up<R: Wait, G: Gate>(
        &self,
        rt: &R,
        pass: &mut Pass<N>,
        table: usize,
        replica: ReplicaId,
        gate: &G,
    ) -> Result<(), AllocError>
        requires table { table < length pass.old.tables }
        requires here { IsNumber replica N.replicas }
        ensures ok { OnOk result (TakesStep N.offered pass.old table (λ t u. u ≡ synced replica t) pass.new) }
        ensures err { OnErr result (KeepsPass pass.old table pass.new) }
    {
        'tries: for _ in rt.forever() {
            if self.look(rt, pass, table, replica)? {
                return Ok(());
            }
            self.help(rt, pass, table, replica, gate)?;
        }
        unreachable!()
    }
}
