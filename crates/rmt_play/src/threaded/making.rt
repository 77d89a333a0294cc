//! A table is made between two rounds.
ghost use Rattle.std.specs.Prelude.{◌≤◌, length, IfOk};
ghost use Rattle.std.specs.Arc.{arc_value};
ghost use Rattle.rmt_play.specs.ThreadedRounds.{AddsAtRest, AddsTo};

use crate::player::MOST_TABLES;
use crate::threaded::cast::Cast;
use crate::threaded::ground::Ground;
use rmt_known::KnownTable;
use rmt_state::State;
use rmt_values::{Name, Schema};
use rmt_workers::Carried;
use std::alloc::{AllocError, Global};
use std::sync::Arc;

/// Adds a table without rows to those at rest. At an error no memory was left, and they are gone.
fn with_table(
    alloc: Global,
    carried: Carried,
    schema: Arc<Schema, Global>,
) -> Result<Carried, AllocError>
    requires some { 1 ≤ length carried.up.items }
    requires few { length carried.up.items ≤ 8 }
    ensures { IfOk result (AddsAtRest (arc_value schema) carried) }
{
    let Carried {
        mut states,
        mut known,
        up,
    } = carried;
    let copy = Arc::try_clone(&schema)?;
    let own = KnownTable::new(alloc, copy, up.len() as u8)?;
    let state = State::new(alloc, schema, &up)?;
    states.push(state)?;
    known.push(own)?;
    Ok(Carried { states, known, up })
}

/// Adds a table without rows, with its name. At an error no memory was left, or there are as many as there may be, and all is gone.
pub(crate) fn add_table(
    alloc: Global,
    ground: Ground,
    name: Name,
    schema: Schema,
) -> Result<Ground, AllocError>
    requires some { 1 ≤ length ground.carried.up.items }
    requires few { length ground.carried.up.items ≤ 8 }
    ensures { IfOk result (AddsTo name schema ground) }
{
    let Ground { cast, carried } = ground;
    let Cast {
        replicas,
        up,
        mut names,
        answered,
    } = cast;
    if names.len() >= MOST_TABLES {
        return Err(AllocError);
    }
    let schema = Arc::new(alloc, schema)?;
    names.push(name)?;
    let carried = with_table(alloc, carried, schema)?;
    let cast = Cast {
        replicas,
        up,
        names,
        answered,
    };
    Ok(Ground { cast, carried })
}
