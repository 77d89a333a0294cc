//! Background events that a generator draws.
ghost use Rattle.std.specs.Prelude.{◌≡◌, ◌<◌, ◌^◌, IfOk, OnOk, OnErr, length};
ghost use Rattle.rmt_events.specs.Draws.{TurnsTo, covers_pending, turn as turn_in};
ghost use Rattle.rmt_events.specs.ClusterChanges.{KeepsTable};
ghost use Rattle.rmt_state.specs.States.{IsNumber};
ghost use Rattle.rmt_cluster.specs.Clusters.{MayStep, Stops};
ghost use Rattle.rmt_cluster.specs.Runs.{RunsAll, RunsSome, TakesTurn, StopsTurn, DoesEvent, replica_applying};

use crate::cluster::Cluster;
use rmt_draws::turn;
use rmt_events::Event;
use rmt_values::ReplicaId;
use std::alloc::{AllocError, Global};

/// The replica at which an event does an entry; none at another event.
fn applying(event: &Event) -> Option<ReplicaId>
    ensures { result ≡ replica_applying event.now }
{
    match event {
        Event::Apply { replica, .. } => Some(*replica),
        _ => None,
    }
}

impl Cluster {
    /// So many background events, each drawn from the state before it, at a replica that is drawn too. An event that is refused
    /// counts as a turn. At an error no memory was left: some of the turns were made, and the next one stopped.
    pub fn run(&mut self, alloc: Global, seed: u32, turns: u32) -> Result<(), AllocError>
        requires seed { seed < 2 ^ 31 }
        ensures ok { OnOk result (RunsAll self.old seed turns self.new) }
        ensures err { OnErr result (RunsSome self.old seed turns self.new) }
        ensures keeps { KeepsTable self.old self.new }
    {
        let mut state = seed;
        'turns: for _turn in 0..turns {
            state = self.take_turn(alloc, state)?;
        }
        Ok(())
    }

    /// One background event, from a state of the generator, and the note of the replica that it has made cover the part that
    /// waits for its quorum. The generator's state after it comes back. At an error no memory was left, and the event or the
    /// note stopped.
    fn take_turn(&mut self, alloc: Global, state: u32) -> Result<u32, AllocError>
        requires state { state < 2 ^ 31 }
        ensures ok { IfOk result (λ next. TakesTurn self.old state self.new next) }
        ensures below { IfOk result (λ next. next < 2 ^ 31) }
        ensures err { OnErr result (StopsTurn self.old (turn_in self.old state).event self.new) }
        ensures keeps { KeepsTable self.old self.new }
    {
        let (event, next) = self.draw(alloc, state)?;
        self.turn_by(alloc, event)?;
        Ok(next)
    }

    /// An event of a turn, and the note after it. At an error no memory was left, and the event or the note stopped.
    fn turn_by(&mut self, alloc: Global, event: Event) -> Result<(), AllocError>
        requires may { MayStep self.old event }
        ensures ok { OnOk result (TurnsTo self.old event self.new) }
        ensures err { OnErr result (StopsTurn self.old event self.new) }
        ensures keeps { KeepsTable self.old self.new }
    {
        let Some(replica) = applying(&event) else {
            return self.do_event(alloc, event);
        };
        let had = self.has_pending(replica);
        self.do_event(alloc, event)?;
        if had || !self.has_pending(replica) {
            return Ok(());
        }
        self.do_event(alloc, Event::Note { replica })
    }

    /// Does one event, whatever its reply is. At an error no memory was left.
    fn do_event(&mut self, alloc: Global, event: Event) -> Result<(), AllocError>
        requires may { MayStep self.old event }
        ensures ok { OnOk result (DoesEvent self.old event self.new) }
        ensures err { OnErr result (Stops self.old event self.new) }
        ensures keeps { KeepsTable self.old self.new }
    {
        match self.step(alloc, event) {
            Ok(_) => Ok(()),
            Err(error) => Err(error),
        }
    }

    /// Whether an active part of a replica covers the part that waits for its quorum.
    fn has_pending(&self, replica: ReplicaId) -> bool
        requires here { IsNumber replica (length self.now.replicas) }
        ensures { result ≡ covers_pending self.now replica }
    {
        self.state.sound();
        self.state.has_pending(replica)
    }

    /// The event of the turn from a state of the generator, which the cluster takes, and the generator's state after it. At an
    /// error no memory was left.
    fn draw(&self, alloc: Global, state: u32) -> Result<(Event, u32), AllocError>
        requires state { state < 2 ^ 31 }
        ensures event { IfOk result (λ t. t.0 ≡ (turn_in self.now state).event) }
        ensures may { IfOk result (λ t. MayStep self.now t.0) }
        ensures state { IfOk result (λ t. t.1 ≡ (turn_in self.now state).state) }
        ensures below { IfOk result (λ t. t.1 < 2 ^ 31) }
    {
        self.state.sound();
        turn(alloc, self.state.replicas(), state)
    }
}
