ghost use Rattle.std.specs.Prelude.{◌≡◌, IfOk};
ghost use Rattle.rmt_storm.specs.Storms.{storm_text};

use crate::draws::Draws;
use crate::storm::Storm;
use crate::texts::push_text;
use std::alloc::{AllocError, Global};

/// The lines before the turns.
const FIRST_LINES: &[u8] =
    b"REPLICAS 3;\nCREATE TABLE s (k UInt64, v UInt64) ENGINE = ReplicatedMergeTree PARTITION BY intDiv(k, 1000) ORDER BY k SETTINGS index_granularity = 16;\n";

/// Those behind them.
const LAST_LINES: &[u8] =
    b"@r1 SELECT count(), sum(v) FROM s SYNC;\n@r2 SELECT count(), sum(v) FROM s SYNC;\n@r3 SELECT count(), sum(v) FROM s SYNC;\n";

/// The script of a workload: so many turns, which a generator draws from a seed, on a table at three replicas. At an error no memory was
/// left.
pub fn script(alloc: Global, seed: u32, turns: u32) -> Result<Vec<u8>, AllocError>
    ensures { IfOk result (λ text. text.items ≡ storm_text seed turns) }
{
    let mut out = Vec::new(alloc);
    push_text(&mut out, FIRST_LINES)?;
    let mut storm = Storm {
        alloc,
        draws: Draws { state: seed },
        last: Vec::new(alloc),
        alters: 0,
    };
    'turns: for _ in 0..turns {
        storm.turn(&mut out)?;
    }
    push_text(&mut out, LAST_LINES)?;
    Ok(out)
}
