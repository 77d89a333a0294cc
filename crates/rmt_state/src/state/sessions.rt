//! A replica's session ends, or begins anew.
ghost use Rattle.std.specs.Prelude.{OnOk, OnErr};
ghost use Rattle.rmt_events.specs.declared.event.Event.TheVariants as ev;
ghost use Rattle.rmt_events.specs.declared.reply.Reply.TheVariants as rp;
ghost use Rattle.rmt_table.specs.TableTrees.{IsReplica};
ghost use Rattle.rmt_state.specs.States.{Acts};

use crate::state::State;
use rmt_values::ReplicaId;
use std::alloc::{AllocError, Global};

impl State {
    /// A replica's session ends, where it is open, and the replica is down. It takes no memory.
    pub fn kill(&mut self, replica: ReplicaId)
        requires here { IsReplica self.old.tree replica }
        ensures { Acts self.old (ev.Kill replica) rp.Done self.new }
    {
        self.tree.close(replica);
        self.replicas[usize::from(replica) - 1].kill();
    }

    /// A replica's session ends, where it is open, and another one begins; the replica is up, and looks at each copied entry
    /// again. At an error no memory was left, and the replica was killed.
    pub fn restart(&mut self, alloc: Global, replica: ReplicaId) -> Result<(), AllocError>
        requires here { IsReplica self.old.tree replica }
        ensures ok { OnOk result (Acts self.old (ev.Restart replica) rp.Done self.new) }
        ensures err { OnErr result (Acts self.old (ev.Kill replica) rp.Done self.new) }
    {
        self.tree.close(replica);
        self.replicas[usize::from(replica) - 1].kill();
        self.tree.open(alloc, replica)?;
        self.replicas[usize::from(replica) - 1].restart();
        Ok(())
    }
}
