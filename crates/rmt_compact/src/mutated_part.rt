//! The part of a Mutate.
ghost use Rattle.std.specs.Prelude.{◌≡◌, IfOk};
ghost use Rattle.std.specs.Arc.{arc_value};
ghost use Rattle.rmt_compact.specs.NewParts.{IsMutateOf, IsMutated};

use crate::gathered::push_blocks;
use crate::name::made_name;
use crate::pending::changed_rows;
use rmt_entries::Entry;
use rmt_granules::from_rows;
use rmt_list::List;
use rmt_names::data_version;
use rmt_part::Part;
use rmt_row::Seen;
use std::alloc::{AllocError, Global};
use std::sync::Arc;

/// Makes the part of a Mutate of the part that it brings up to its mutation, where these are all mutations up to that one. The
/// rows keep their order, and only the mutations that are pending for the old part go over them. At an error no memory was left,
/// and the token is gone.
pub fn mutate(
    alloc: Global,
    old: &Arc<Part, Global>,
    made: Seen<Entry>,
    mutations: &Arc<List<Seen<Entry>>, Global>,
) -> Result<Part, AllocError>
    requires { IsMutateOf made (arc_value old.now) (arc_value mutations.now) }
    ensures { IfOk result (IsMutated made (arc_value old.now) (arc_value mutations.now)) }
{
    let name = made_name(made.value());
    let tokens = mutations.as_slice();
    let partition = name.partition();
    let high = name.mutation();
    let low = data_version(old.name());
    let rows = changed_rows(
        alloc,
        old.body(),
        tokens,
        partition,
        low,
        high,
        old.schema(),
    )?;
    let data = from_rows(alloc, rows, old.schema())?;
    let body = Arc::new(alloc, data)?;
    let mut blocks = Vec::new(alloc);
    push_blocks(&mut blocks, old.blocks())?;
    let schema = Arc::try_clone(old.schema())?;
    let mutations = Arc::try_clone(mutations)?;
    Ok(Part::of(schema, name, body, made, blocks, mutations))
}
