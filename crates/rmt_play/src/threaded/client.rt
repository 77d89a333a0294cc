//! A round of a script, as its client plays it beside workers.
ghost use Rattle.std.specs.Prelude.{◌≡◌, ◌≢◌, ◌≤◌, length};

use crate::engine::Engine;
use crate::player::Player;
use crate::round::Round;
use crate::script::play_round;
use crate::teller::Teller;
use crate::threaded::beside::ClientWork;
use std::alloc::Global;

/// A client that plays a script from a place on, up to the first CREATE that meets no refusal, where so many statements were
/// refused before; and how that ended.
#[derive(Drop)]
pub(crate) struct Client<'s, 'k, E: Engine, T: Teller> {
    pub alloc: Global,
    pub player: Player<E>,
    pub script: &'s [u8],
    pub from: usize,
    pub count: u64,
    pub teller: &'k mut T,
    pub round: Round,
}

impl<'s, 'k, E: Engine, T: Teller> ClientWork for Client<'s, 'k, E, T> {
    ghost use Rattle.rmt_play.specs.ThreadedRounds.{IsReadyClient, PlaysRound};

    ghost ready = { λ c. IsReadyClient E.sights E.tables c };

    ghost becomes = { λ c d. PlaysRound T.outlet E.sights E.tables T.told T.faults c d };

    fn run(self) -> Self {
        let Client {
            alloc,
            mut player,
            script,
            from,
            count,
            teller,
            round: _,
        } = self;
        let round = play_round(alloc, &mut player, script, from, count, &mut *teller);
        Client {
            alloc,
            player,
            script,
            from,
            count,
            teller,
            round,
        }
    }
}
