//! Copies of a block that asks for a quorum: the writer is noted, and the other replicas are asked one after the other.
ghost use Rattle.std.specs.Prelude.{◌≡◌, ◌<◌, false, true, length, IfOk, OnErr, OnOk};
ghost use Rattle.rmt_statement_model.specs.QuorumCopies.{CopiesLater, NotesWriter};
ghost use Rattle.rmt_shared.specs.SharedReplicas.{IsNumber};
ghost use Rattle.rmt_pass.specs.Passes.{KeepsPass, up_in};
ghost use Rattle.rmt_workers.specs.Crews.{Saw};
ghost use Rattle.rmt_workers.specs.CrewInserts.{CopiesBlock, IsGathered, TakesInto};

use crate::crew::Crew;
use rmt_outside::Gate;
use rmt_pass::Pass;
use rmt_shared::Naming;
use rmt_values::ReplicaId;
use std::alloc::AllocError;
use std::sync::Wait;

impl<N: Naming> Crew<N> {
    /// Notes a block's writer for the part that waits for its quorum. At an error no memory was left.
    fn note_writer<R: Wait>(
        &self,
        rt: &R,
        pass: &mut Pass<N>,
        table: usize,
        writer: ReplicaId,
    ) -> Result<(), AllocError>
        requires table { table < length pass.old.tables }
        requires here { IsNumber writer N.replicas }
        ensures ok { OnOk result (TakesInto N.offered pass.old table (NotesWriter true writer) pass.new) }
        ensures err { OnErr result (KeepsPass pass.old table pass.new) }
    {
        let mut guard = self.see(rt, pass, table)?;
        let tables = &mut *guard;
        pass.note(self.alloc, tables, table, writer)?;
        Ok(())
    }

    /// Whether a replica is asked for a copy of a writer's block, as the table is now. At an error no memory was left.
    fn is_asked<R: Wait>(
        &self,
        rt: &R,
        pass: &mut Pass<N>,
        table: usize,
        writer: ReplicaId,
        replica: ReplicaId,
    ) -> Result<bool, AllocError>
        requires table { table < length pass.old.tables }
        ensures ok { OnOk result (Saw pass.old table pass.new) }
        ensures err { OnErr result (KeepsPass pass.old table pass.new) }
    {
        let _guard = self.see(rt, pass, table)?;
        Ok(pass.is_asked(table, writer, replica))
    }

    /// Notes that a replica has made its copy of the block at a place, where it is asked for one as the table is now. At an
    /// error no memory was left.
    fn note_copy<R: Wait>(
        &self,
        rt: &R,
        pass: &mut Pass<N>,
        table: usize,
        writer: ReplicaId,
        replica: ReplicaId,
        place: usize,
    ) -> Result<(), AllocError>
        requires table { table < length pass.old.tables }
        ensures ok { OnOk result (TakesInto N.offered pass.old table (CopiesLater true (up_in pass.old.up) writer place replica) pass.new) }
        ensures err { OnErr result (KeepsPass pass.old table pass.new) }
    {
        let mut guard = self.see(rt, pass, table)?;
        let tables = &mut *guard;
        pass.copy_block(self.alloc, tables, table, writer, replica, place)?;
        Ok(())
    }

    /// Has a replica make its copy of the block at a place, where it is asked for one. At an error no memory was left.
    fn copy_at<R: Wait, G: Gate>(
        &self,
        rt: &R,
        pass: &mut Pass<N>,
        table: usize,
        writer: ReplicaId,
        replica: ReplicaId,
        place: usize,
        gate: &G,
    ) -> Result<(), AllocError>
        requires table { table < length pass.old.tables }
        ensures ok { OnOk result (TakesInto N.offered pass.old table (CopiesLater true (up_in pass.old.up) writer place replica) pass.new) }
        ensures err { OnErr result (KeepsPass pass.old table pass.new) }
    {
        if self.is_asked(rt, pass, table, writer, replica)? {
            self.complete(rt, pass, table, replica, place, gate)?;
        }
        self.note_copy(rt, pass, table, writer, replica, place)
    }

    /// Has the copies made that the quorum of the block at a place asks for. At an error no memory was left.
    fn copy_all<R: Wait, G: Gate>(
        &self,
        rt: &R,
        pass: &mut Pass<N>,
        table: usize,
        writer: ReplicaId,
        place: usize,
        gate: &G,
    ) -> Result<(), AllocError>
        requires table { table < length pass.old.tables }
        requires here { IsNumber writer N.replicas }
        ensures ok { OnOk result (CopiesBlock N.offered pass.old table writer place pass.new) }
        ensures err { OnErr result (KeepsPass pass.old table pass.new) }
    {
        self.note_writer(rt, pass, table, writer)?;
        'replicas: for before in 0..8u8 {
            self.copy_at(rt, pass, table, writer, before + 1, place, gate)?;
        }
        let _guard = self.see(rt, pass, table)?;
        Ok(())
    }

    /// Has the copies made that a block at a place asks for, where it asks for a quorum: tells by how many replicas its
    /// part was noted where that isn't met. At an error no memory was left.
    pub(crate) fn gather<R: Wait, G: Gate>(
        &self,
        rt: &R,
        pass: &mut Pass<N>,
        table: usize,
        writer: ReplicaId,
        place: usize,
        need: u32,
        gate: &G,
    ) -> Result<Option<u32>, AllocError>
        requires table { table < length pass.old.tables }
        requires here { IsNumber writer N.replicas }
        requires goes { pass.old.gave_up ≡ false }
        ensures ok { IfOk result (λ unmet. IsGathered N.offered pass.old table writer place need unmet pass.new) }
        ensures err { OnErr result (KeepsPass pass.old table pass.new) }
    {
        if need < 2 {
            return Ok(None);
        }
        self.copy_all(rt, pass, table, writer, place, gate)?;
        match pass.known(table).quorum().pending() {
            None => Ok(None),
            Some(waiting) => Ok(Some(waiting.count())),
        }
    }
}
