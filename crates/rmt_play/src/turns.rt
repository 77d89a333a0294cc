//! RUN in its table.
ghost use Rattle.std.specs.Prelude.{◌≡◌, ◌≢◌, ◌<◌, ◌^◌, IfOk, IfSome, MatchOption, OnOk};
ghost use Rattle.std.specs.declared.option.Option.TheVariants.{None};
ghost use Rattle.rmt_acting.specs.Acting.{GoesOn, KeepsShape};
ghost use Rattle.rmt_play.specs.Checks.{refused_turns};
ghost use Rattle.rmt_play.specs.ActSteps.{RunsTable};

use rmt_acting::Acting;
use rmt_reply::Line;
use std::alloc::{AllocError, Global};

/// The most turns of a RUN.
const MOST_TURNS: u128 = 1_000_000;

/// The turns and the seed, where both are in range.
pub(crate) fn in_range(turns: u128, seed: u128) -> Option<(u32, u32)>
    ensures range { MatchOption result (refused_turns turns seed ≢ None)
        (λ x. (refused_turns turns seed ≡ None) × (x.0 ≡ turns) × (x.1 ≡ seed)) }
    ensures seed { IfSome result (λ x. x.1 < 2 ^ 31) }
{
    if turns <= MOST_TURNS && seed < 1 << 31 {
        Some((turns as u32, seed as u32))
    } else {
        None
    }
}

/// Makes so many background events.
pub(crate) fn run_in<E: Acting>(
    alloc: Global,
    engine: &mut E,
    turns: u32,
    seed: u32,
) -> Result<Line, AllocError>
    requires free { (E.seen engine.old).free }
    requires seed { seed < 2 ^ 31 }
    ensures runs { IfOk result (λ line. RunsTable turns seed line (E.seen engine.old) (E.seen engine.new)) }
    ensures goes_on { OnOk result (GoesOn (E.seen engine.old) (E.seen engine.new)) }
    ensures keeps { KeepsShape (E.seen engine.old) (E.seen engine.new) }
{
    engine.run_turns(alloc, seed, turns)?;
    Ok(Line::Ran(turns))
}
