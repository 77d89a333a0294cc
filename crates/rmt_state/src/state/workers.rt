//! One replica of a state.
ghost use Rattle.std.specs.Prelude.{length};
ghost use Rattle.rmt_state.specs.States.{IsWorkerAt};
ghost use Rattle.rmt_state.specs.States.{IsNumber};

use crate::state::State;
use rmt_replica::Replica;
use rmt_values::ReplicaId;

impl State {
    /// The replica of a number.
    pub fn worker(&self, replica: ReplicaId) -> &Replica
        requires here { IsNumber replica (length self.now.replicas) }
        ensures at { IsWorkerAt self.now replica result.now }
    {
        &self.replicas[usize::from(replica) - 1]
    }
}
