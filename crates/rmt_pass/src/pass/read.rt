//! What a client reads of a table at a replica.
ghost use Rattle.std.specs.Prelude.{◌≡◌, ◌<◌, length, IfOk, IfSome, MatchOption, OnErr, OnOk};
ghost use Rattle.std.specs.List.{All};
ghost use Rattle.std.specs.declared.option.Option.TheVariants.{None};
ghost use Rattle.rmt_format.specs.PartBytes.{HasPartBytes};
ghost use Rattle.rmt_partset.specs.Snapshots.{names_in};
ghost use Rattle.rmt_statement_model.specs.ActOutcomes.{ReadsParts, ReadsQuorum};
ghost use Rattle.rmt_readings.specs.Readable.{IsUnread};
ghost use Rattle.rmt_shared.specs.SharedTables.{log_in, name_at};
ghost use Rattle.rmt_shared.specs.SharedReplicas.{IsNumber};
ghost use Rattle.rmt_pass.specs.Passes.{IsCurrent, TakesStep, client_at};
ghost use Rattle.rmt_pass.specs.ReadSteps.{IsFoundAt, IsReadableAt, ShowsAt};

use crate::pass::Pass;
use rmt_partset::Snapshot;
use rmt_readings::{parts_in_quorum, readable_parts};
use rmt_reply::Refusal;
use rmt_shared::{Naming, SharedReplica, SharedTables};
use rmt_values::ReplicaId;
use std::alloc::{AllocError, Global};

impl<N: Naming> Pass<N> {
    /// Those active parts of a replica of the table at a place that the client may read, which doesn't note what they hold; None where
    /// the replica isn't as the client knows it.
    ///
    /// At an error no memory was left.
    pub fn readable(
        &self,
        alloc: Global,
        tables: &SharedTables<N>,
        table: usize,
        here: &SharedReplica<N>,
    ) -> Result<Option<Snapshot>, AllocError>
        requires table { table < length self.now.tables }
        requires current { IsCurrent self.now table tables.now }
        requires of { here.now.table ≡ table }
        ensures ok { IfOk result (λ parts. MatchOption parts
            (IsUnread (client_at self.now table) (log_in tables.now table) here.now.replica)
            (IsReadableAt N.offered (name_at N.tables table) self.now table here.now.replica)) }
    {
        let known = &self.tables[table];
        let tree = tables.table(table);
        // What always holds of a table, and of a copy of its log, is known here.
        tree.no_limit_is_passed();
        let _length = known.copy().len();
        readable_parts(alloc, known, tree, here.replica())
    }

    /// Those of such parts that are in a quorum, or the refusal, where none of them covers the last part whose quorum was met; None
    /// where the replica isn't as the client knows it. At an error no memory was left.
    fn readable_in_quorum(
        &self,
        alloc: Global,
        tables: &SharedTables<N>,
        table: usize,
        here: &SharedReplica<N>,
    ) -> Result<Option<Result<Snapshot, Refusal>>, AllocError>
        requires table { table < length self.now.tables }
        requires current { IsCurrent self.now table tables.now }
        requires of { here.now.table ≡ table }
        ensures ok { IfOk result (λ read. MatchOption read
            (IsUnread (client_at self.now table) (log_in tables.now table) here.now.replica)
            (IsFoundAt N.offered (name_at N.tables table) self.now table here.now.replica)) }
    {
        let Some(active) = self.readable(alloc, tables, table, here)? else {
            return Ok(None);
        };
        let found = parts_in_quorum(alloc, self.tables[table].quorum(), &active)?;
        Ok(Some(found))
    }

    /// Notes that a replica of the table at a place has shown these parts. At an error no memory was left, and nothing changed.
    fn note_shown(
        &mut self,
        table: usize,
        replica: ReplicaId,
        parts: &Snapshot,
    ) -> Result<(), AllocError>
        requires table { table < length self.old.tables }
        requires here { IsNumber replica N.replicas }
        ensures ok { OnOk result (ShowsAt self.old table replica (names_in parts.now) self.new) }
        ensures err { OnErr result (self.new ≡ self.old) }
    {
        self.tables[table].show(replica, parts)?;
        Ok(())
    }

    /// Reads the active parts of a replica of the table at a place, and knows what they hold then. None where the replica isn't as
    /// the client knows it: it isn't up, it has more of the log than the table, or it lacks what is known there. Then nothing
    /// changed.
    ///
    /// At an error no memory was left, as none has the bytes of a part of 2^32 rows, and nothing changed.
    pub fn read_parts(
        &mut self,
        alloc: Global,
        tables: &SharedTables<N>,
        table: usize,
        here: &SharedReplica<N>,
    ) -> Result<Option<Snapshot>, AllocError>
        requires table { table < length self.old.tables }
        requires current { IsCurrent self.old table tables.now }
        requires of { here.now.table ≡ table }
        ensures ok { IfOk result (λ parts. MatchOption parts (self.new ≡ self.old)
            (λ s. TakesStep N.offered self.old table (ReadsParts here.now.replica.number s) self.new)) }
        ensures unread { IfOk result (λ parts. parts ≡ None
            → IsUnread (client_at self.old table) (log_in tables.now table) here.now.replica) }
        ensures current { OnOk result (IsCurrent self.new table tables.now) }
        ensures keys { IfOk result (λ parts. IfSome parts
            (All (λ part. part.rows.key ≡ (name_at N.tables table).schema.key))) }
        ensures bytes { IfOk result (λ parts. IfSome parts
            (All (λ part. HasPartBytes (name_at N.tables table).schema part.rows))) }
        ensures err { OnErr result (self.new ≡ self.old) }
    {
        let Some(parts) = self.readable(alloc, tables, table, here)? else {
            return Ok(None);
        };
        self.note_shown(table, here.replica().number(), &parts)?;
        Ok(Some(parts))
    }

    /// The same of those parts that are in a quorum. Or gives the refusal, where none of them covers the last part whose quorum was
    /// met, and nothing changed.
    ///
    /// At an error no memory was left, as none has the bytes of a part of 2^32 rows, and nothing changed.
    pub fn read_in_quorum(
        &mut self,
        alloc: Global,
        tables: &SharedTables<N>,
        table: usize,
        here: &SharedReplica<N>,
    ) -> Result<Option<Result<Snapshot, Refusal>>, AllocError>
        requires table { table < length self.old.tables }
        requires current { IsCurrent self.old table tables.now }
        requires of { here.now.table ≡ table }
        ensures ok { IfOk result (λ read. MatchOption read (self.new ≡ self.old)
            (λ found. TakesStep N.offered self.old table (ReadsQuorum here.now.replica.number found) self.new)) }
        ensures unread { IfOk result (λ read. read ≡ None
            → IsUnread (client_at self.old table) (log_in tables.now table) here.now.replica) }
        ensures current { OnOk result (IsCurrent self.new table tables.now) }
        ensures keys { IfOk result (λ read. IfSome read (λ found. IfOk found
            (All (λ part. part.rows.key ≡ (name_at N.tables table).schema.key)))) }
        ensures bytes { IfOk result (λ read. IfSome read (λ found. IfOk found
            (All (λ part. HasPartBytes (name_at N.tables table).schema part.rows)))) }
        ensures err { OnErr result (self.new ≡ self.old) }
    {
        let Some(found) = self.readable_in_quorum(alloc, tables, table, here)? else {
            return Ok(None);
        };
        match found {
            Ok(parts) => {
                self.note_shown(table, here.replica().number(), &parts)?;
                Ok(Some(Ok(parts)))
            }
            Err(refusal) => Ok(Some(Err(refusal))),
        }
    }
}
