//! The part of a Merge.
ghost use Rattle.std.specs.Prelude.{◌≡◌, map, IfOk};
ghost use Rattle.std.specs.Arc.{arc_value};
ghost use Rattle.rmt_compact.specs.NewParts.{IsMergeOf, IsMerged};

use crate::gathered::{blocks, bodies, most_mutations};
use crate::name::made_name;
use rmt_entries::Entry;
use rmt_granules::merged;
use rmt_part::Part;
use rmt_row::Seen;
use std::alloc::{AllocError, Global};
use std::sync::Arc;

/// Makes the part of a Merge of its sources: their rows in order of key, rows of equal keys in the order of the sources.
/// At an error no memory was left, and the token is gone.
pub fn merge(
    alloc: Global,
    sources: &[Arc<Part, Global>],
    made: Seen<Entry>,
) -> Result<Part, AllocError>
    requires { IsMergeOf made (map arc_value sources.now) }
    ensures { IfOk result (IsMerged made (map arc_value sources.now)) }
{
    let name = made_name(made.value());
    let bodies = bodies(alloc, sources)?;
    let schema = Arc::try_clone(sources[0].schema())?;
    let data = merged(alloc, &bodies, &schema)?;
    let body = Arc::new(alloc, data)?;
    let blocks = blocks(alloc, sources)?;
    let mutations = most_mutations(sources)?;
    Ok(Part::of(schema, name, body, made, blocks, mutations))
}
