ghost use Rattle.std.specs.Prelude.{◌≡◌, ◌<◌, ◌↔◌, length, IfOk, IsTrue, OnErr, OnOk};
ghost use Rattle.rmt_model.specs.Words.{Has};
ghost use Rattle.rmt_events.specs.TableCalls.{Closes, Opens};
ghost use Rattle.rmt_table.specs.TableTrees.{table_at};
ghost use Rattle.rmt_shared.specs.SharedTables.{ChangesTable};
ghost use Rattle.rmt_shared.specs.SharedReplicas.{IsNumber};
ghost use Rattle.rmt_shared.specs.ClientCalls.{HasTable, NotesIn};

use crate::naming::Naming;
use crate::shared_tables::SharedTables;
use rmt_names::PartName;
use rmt_values::ReplicaId;
use std::alloc::{AllocError, Global};

impl<N: Naming> SharedTables<N> {
    /// Starts the session of a replica of the table at a place, where it has none. At an error no memory was left, and nothing
    /// changes.
    pub fn open_session(
        &mut self,
        alloc: Global,
        table: usize,
        replica: ReplicaId,
    ) -> Result<(), AllocError>
        requires table { table < length self.old }
        requires here { IsNumber replica N.replicas }
        ensures ok { OnOk result (ChangesTable self.old table
            (λ t u. Opens (table_at t) replica (table_at u)) self.new) }
        ensures err { OnErr result (self.new ≡ self.old) }
    {
        self.tables[table].open(alloc, replica)?;
        Ok(())
    }

    /// Ends the session of a replica of the table at a place, where it has one, and with it the locks of its inserts. It takes no
    /// memory.
    pub fn close_session(&mut self, table: usize, replica: ReplicaId)
        requires table { table < length self.old }
        requires here { IsNumber replica N.replicas }
        ensures closes { ChangesTable self.old table
            (λ t u. Closes (table_at t) replica (table_at u)) self.new }
    {
        self.tables[table].close(replica);
    }

    /// Whether a replica of the table at a place has a session. It takes no memory.
    pub fn is_open(&self, table: usize, replica: ReplicaId) -> bool
        requires table { table < length self.now }
        requires here { IsNumber replica N.replicas }
        ensures { HasTable self.now table (λ t. IsTrue result ↔ Has (table_at t).sessions replica) }
    {
        self.tables[table].is_open(replica)
    }

    /// Notes a replica for a part, where that part waits for its quorum in the table at a place, and tells whether it does. Where
    /// as many replicas have noted it as it needs, it is the last part then, and none waits.
    ///
    /// At an error no memory was left, and nothing changes.
    pub fn note_quorum(
        &mut self,
        alloc: Global,
        table: usize,
        replica: ReplicaId,
        part: &PartName,
    ) -> Result<bool, AllocError>
        requires table { table < length self.old }
        requires here { IsNumber replica N.replicas }
        ensures noted { IfOk result (λ noted. NotesIn self.old table replica part.now noted self.new) }
        ensures err { OnErr result (self.new ≡ self.old) }
    {
        let noted = self.tables[table].note_quorum(alloc, replica, part)?;
        Ok(noted)
    }
}
