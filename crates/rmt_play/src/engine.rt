//! What tables are played in, all of them together.
ghost use Rattle.std.specs.Prelude.{◌≡◌, ◌<◌, ◌^◌, ℕ, List, [], length, slice_get, IfOk, OnOk};
ghost use Rattle.std.specs.declared.option.Option.TheVariants.{Some};
ghost use Rattle.rmt_model.specs.Words.{Each};
ghost use Rattle.rmt_state.specs.States.{IsNumber};
ghost use Rattle.rmt_sql_acts.specs.Acts.{HasSmallCommand};
ghost use Rattle.rmt_play.specs.ActSteps.{ExecutesThere, RunsTable};
ghost use Rattle.rmt_play.specs.Offered.{OffersAct};
ghost use Rattle.rmt_play.specs.PlayerSteps.{Sights, IsReady, IsFreeThere, ChangesAt, TurnsEach};

use rmt_reply::Line;
use rmt_statements::Act;
use rmt_values::ReplicaId;
use std::alloc::{AllocError, Global};

/// The tables of a script, in the order in which they were created, and what executes acts in them. At an error no memory
/// was left.
pub(crate) trait Engine {
    /// What is seen of tables.
    ghost sights: { Sights };

    /// The tables.
    ghost tables: { Self → List sights.Table };

    /// Does an act in the table at a place, at a replica, or refuses it.
    fn act(
        &mut self,
        alloc: Global,
        place: usize,
        replica: ReplicaId,
        is_up: bool,
        act: &Act,
    ) -> Result<Line, AllocError>
        requires place { place < length (tables self.old) }
        requires ready { IsReady sights (tables self.old) place replica is_up }
        requires small { HasSmallCommand act.now }
        requires offered { OffersAct sights.offers act.now }
        ensures { IfOk result (λ line. ChangesAt sights (tables self.old) place
            (λ s u. ExecutesThere s replica act.now line u) (tables self.new)) };

    /// Does so many turns of background work in the table at a place, as the seed draws them.
    fn work(
        &mut self,
        alloc: Global,
        place: usize,
        turns: u32,
        seed: u32,
    ) -> Result<Line, AllocError>
        requires place { place < length (tables self.old) }
        requires free { IsFreeThere sights (tables self.old) place }
        requires seed { seed < 2 ^ 31 }
        ensures { IfOk result (λ line. ChangesAt sights (tables self.old) place
            (RunsTable turns seed line) (tables self.new)) };

    /// Ends a replica's session in each table, or begins another one.
    fn turn(&mut self, alloc: Global, replica: ReplicaId, is_up: bool) -> Result<(), AllocError>
        requires { Each (λ t. IsNumber replica (sights.seen t).count) (tables self.old) }
        ensures { OnOk result (TurnsEach sights replica is_up (tables self.old) (tables self.new)) };

    /// Passes the point after the reply of the next statement was written.
    fn answered(&mut self)
        ensures { tables self.new ≡ tables self.old };

    /// Forgets the tables.
    fn clear(&mut self)
        ensures { tables self.new ≡ [] };
}
