//! A replica does an entry of its copy of the log with what is supplied.
ghost use Rattle.std.specs.Prelude.{◌≡◌, ◌-◌, ◌<◌, IfSome, length, slice_get};
ghost use Rattle.std.specs.declared.option.Option.TheVariants.{Some};
ghost use Rattle.rmt_replica.specs.Replicas.{ReplicaView};
ghost use Rattle.rmt_replica.specs.Supplies.{supplied};
ghost use Rattle.rmt_replica.specs.Answers.{IsOfTable};
ghost use Rattle.rmt_table.specs.TableTrees.{IsReplica};
ghost use Rattle.rmt_state.specs.States.{AppliesAt};

use crate::state::State;
use rmt_replica::{Applied, ApplyError, Supply};
use rmt_values::ReplicaId;

impl State {
    /// A replica does the entry at a place of its copy, in any order, with the part that is supplied; it only marks the entry
    /// where nothing is left to do. The table and the other replicas stay.
    ///
    /// # Errors
    ///
    /// Down where the replica isn't up; the part that is needed; or out of memory. Nothing changed.
    pub fn apply(
        &mut self,
        replica: ReplicaId,
        i: usize,
        supply: Supply,
    ) -> Result<Applied, ApplyError>
        requires here { IsReplica self.old.tree replica }
        requires place { (x : ReplicaView) → slice_get self.old.replicas (replica - 1) ≡ Some x
            → i < length x.log }
        requires of_table { (x : ReplicaView) → slice_get self.old.replicas (replica - 1) ≡ Some x
            → IfSome (supplied supply) (IsOfTable x) }
        ensures { AppliesAt self.old replica i supply result self.new }
    {
        self.replicas[usize::from(replica) - 1].apply(i, supply)
    }
}
