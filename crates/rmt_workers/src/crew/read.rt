//! What a client reads of a table at a replica.
ghost use Rattle.std.specs.Prelude.{◌≡◌, ◌<◌, length, IfOk, IfSome, MatchOption, OnErr, OnOk};
ghost use Rattle.std.specs.List.{All};
ghost use Rattle.rmt_format.specs.PartBytes.{HasPartBytes};
ghost use Rattle.rmt_statement_model.specs.ActOutcomes.{ReadsParts, ReadsQuorum};
ghost use Rattle.rmt_readings.specs.Readable.{AnswersAll};
ghost use Rattle.rmt_shared.specs.SharedTables.{name_at};
ghost use Rattle.rmt_pass.specs.Passes.{KeepsPass, TakesStep, client_at};
ghost use Rattle.rmt_workers.specs.Crews.{MayRead, Saw};

use crate::crew::Crew;
use rmt_outside::{Gate, Point};
use rmt_partset::Snapshot;
use rmt_pass::Pass;
use rmt_reply::Refusal;
use rmt_shared::Naming;
use rmt_values::ReplicaId;
use std::alloc::AllocError;
use std::sync::Wait;

/// Lets the gate hold whoever has taken note of the active parts of a replica. It passes over a table that can't be told.
fn hold<G: Gate>(gate: &G, table: usize, replica: ReplicaId) {
    if let Ok(table) = u8::try_from(table) {
        gate.pass(Point::AfterSnapshot { table, replica });
    }
}

impl<N: Naming> Crew<N> {
    /// Reads the active parts of a replica, where it is as the client knows it. At an error no memory was left.
    fn try_snapshot<R: Wait>(
        &self,
        rt: &R,
        pass: &mut Pass<N>,
        table: usize,
        replica: ReplicaId,
    ) -> Result<Option<Snapshot>, AllocError>
        requires table { table < length pass.old.tables }
        ensures reads { IfOk result (λ parts. MatchOption parts (Saw pass.old table pass.new)
            (λ s. TakesStep N.offered pass.old table (ReadsParts replica s) pass.new)) }
        ensures keys { IfOk result (λ parts. IfSome parts (All (λ part. part.rows.key ≡ (name_at N.tables table).schema.key))) }
        ensures bytes { IfOk result (λ parts. IfSome parts (All (λ part. HasPartBytes (name_at N.tables table).schema part.rows))) }
        ensures err { OnErr result (KeepsPass pass.old table pass.new) }
    {
        let guard = self.lock_known(rt, pass, table, replica);
        let here = &*guard;
        let tables_guard = self.see(rt, pass, table)?;
        let tables = &*tables_guard;
        let parts = pass.read_parts(self.alloc, tables, table, here)?;
        Ok(parts)
    }

    /// The active parts of a replica of the table at a place, which know then what they hold. Where the replica lacks what
    /// the client knows to be there, it is helped on until it has it.
    ///
    /// At an error no memory was left.
    pub fn snapshot<R: Wait, G: Gate>(
        &self,
        rt: &R,
        pass: &mut Pass<N>,
        table: usize,
        replica: ReplicaId,
        gate: &G,
    ) -> Result<Snapshot, AllocError>
        requires table { table < length pass.old.tables }
        ensures reads { IfOk result (λ s. TakesStep N.offered pass.old table (ReadsParts replica s) pass.new) }
        ensures keys { IfOk result (All (λ part. part.rows.key ≡ (name_at N.tables table).schema.key)) }
        ensures bytes { IfOk result (All (λ part. HasPartBytes (name_at N.tables table).schema part.rows)) }
        ensures err { OnErr result (KeepsPass pass.old table pass.new) }
    {
        'tries: for _ in rt.forever() {
            if let Some(parts) = self.try_snapshot(rt, pass, table, replica)? {
                hold(gate, table, replica);
                return Ok(parts);
            }
            self.help(rt, pass, table, replica, gate)?;
        }
        unreachable!()
    }

    /// Reads those active parts of a replica that are in a quorum, or tells why none are read, where it is as the client
    /// knows it. At an error no memory was left.
    fn try_quorum_snapshot<R: Wait>(
        &self,
        rt: &R,
        pass: &mut Pass<N>,
        table: usize,
        replica: ReplicaId,
    ) -> Result<Option<Result<Snapshot, Refusal>>, AllocError>
        requires table { table < length pass.old.tables }
        ensures reads { IfOk result (λ read. MatchOption read (Saw pass.old table pass.new)
            (λ found. TakesStep N.offered pass.old table (ReadsQuorum replica found) pass.new)) }
        ensures keys { IfOk result (λ read. IfSome read (λ found. IfOk found
            (All (λ part. part.rows.key ≡ (name_at N.tables table).schema.key)))) }
        ensures bytes { IfOk result (λ read. IfSome read (λ found. IfOk found
            (All (λ part. HasPartBytes (name_at N.tables table).schema part.rows)))) }
        ensures err { OnErr result (KeepsPass pass.old table pass.new) }
    {
        let guard = self.lock_known(rt, pass, table, replica);
        let here = &*guard;
        let tables_guard = self.see(rt, pass, table)?;
        let tables = &*tables_guard;
        let found = pass.read_in_quorum(self.alloc, tables, table, here)?;
        Ok(found)
    }

    /// Those active parts of a replica of the table at a place that are in a quorum; or the refusal, where none of them
    /// covers the last part whose quorum was met.
    ///
    /// At an error no memory was left.
    pub fn quorum_snapshot<R: Wait, G: Gate>(
        &self,
        rt: &R,
        pass: &mut Pass<N>,
        table: usize,
        replica: ReplicaId,
        gate: &G,
    ) -> Result<Result<Snapshot, Refusal>, AllocError>
        requires table { table < length pass.old.tables }
        ensures reads { IfOk result (λ found. TakesStep N.offered pass.old table (ReadsQuorum replica found) pass.new) }
        ensures keys { IfOk result (λ found. IfOk found (All (λ part. part.rows.key ≡ (name_at N.tables table).schema.key))) }
        ensures bytes { IfOk result (λ found. IfOk found (All (λ part. HasPartBytes (name_at N.tables table).schema part.rows))) }
        ensures err { OnErr result (KeepsPass pass.old table pass.new) }
    {
        'tries: for _ in rt.forever() {
            if let Some(found) = self.try_quorum_snapshot(rt, pass, table, replica)? {
                hold(gate, table, replica);
                return Ok(found);
            }
            self.help(rt, pass, table, replica, gate)?;
        }
        unreachable!()
    }

    /// The active parts of a replica, where it is as the client knows it, which doesn't note what they hold. At an error no
    /// memory was left.
    fn try_whole_snapshot<R: Wait>(
        &self,
        rt: &R,
        pass: &mut Pass<N>,
        table: usize,
        replica: ReplicaId,
    ) -> Result<Option<Snapshot>, AllocError>
        requires table { table < length pass.old.tables }
        ensures saw { OnOk result (Saw pass.old table pass.new) }
        ensures reads { IfOk result (λ parts. IfSome parts (MayRead (N.offered table) (client_at pass.old table) replica)) }
        ensures keys { IfOk result (λ parts. IfSome parts (All (λ part. part.rows.key ≡ (name_at N.tables table).schema.key))) }
        ensures err { OnErr result (KeepsPass pass.old table pass.new) }
    {
        let guard = self.lock_known(rt, pass, table, replica);
        let here = &*guard;
        let tables_guard = self.see(rt, pass, table)?;
        let tables = &*tables_guard;
        let parts = pass.readable(self.alloc, tables, table, here)?;
        Ok(parts)
    }

    /// The active parts of a replica of the table at a place, for a query over all that was accepted: where the client knew
    /// each entry of its log to be done there, what is answered over them with the mutations of that log is what is
    /// answered over the plain rows, whatever workers do meanwhile. Where the replica lacks what the client knows to be
    /// there, it is helped on until it has it.
    ///
    /// At an error no memory was left.
    pub fn whole_snapshot<R: Wait, G: Gate>(
        &self,
        rt: &R,
        pass: &mut Pass<N>,
        table: usize,
        replica: ReplicaId,
        gate: &G,
    ) -> Result<Snapshot, AllocError>
        requires table { table < length pass.old.tables }
        ensures rests { OnOk result (TakesStep N.offered pass.old table (λ t u. u ≡ t) pass.new) }
        ensures answers { IfOk result (AnswersAll (N.offered table) (client_at pass.old table) replica) }
        ensures keys { IfOk result (All (λ part. part.rows.key ≡ (name_at N.tables table).schema.key)) }
        ensures err { OnErr result (KeepsPass pass.old table pass.new) }
    {
        'tries: for _ in rt.forever() {
            if let Some(parts) = self.try_whole_snapshot(rt, pass, table, replica)? {
                hold(gate, table, replica);
                return Ok(parts);
            }
            self.help(rt, pass, table, replica, gate)?;
        }
        unreachable!()
    }
}
