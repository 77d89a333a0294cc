//! Parts that are built of what was taken, with no replica at hand.
ghost use Rattle.std.specs.Prelude.{◌<◌, ◌^◌, map, length, IfOk, IfSome};
ghost use Rattle.std.specs.Arc.{arc_value};
ghost use Rattle.std.specs.Option.{option_map};
ghost use Rattle.rmt_part.specs.Lineages.{IsPart};
ghost use Rattle.rmt_compact.specs.NewParts.{IsOfBlock, IsMergeOf, IsMerged, IsMutateOf, IsMutated};
ghost use Rattle.rmt_supply.specs.PartSources.{IsAccepted};
ghost use Rattle.rmt_supply.specs.TakenParts.{CanBuild, HasAccepted, BuildsPart};

use crate::taken::Taken;
use rmt_block::Block;
use rmt_compact::{from_block, merge as merged, mutate as mutated};
use rmt_entries::Entry;
use rmt_list::List;
use rmt_part::Part;
use rmt_row::Seen;
use rmt_values::Schema;
use std::alloc::{AllocError, Global};
use std::sync::Arc;

/// The part of the block that the Get of a token accepted. At an error no memory was left.
pub(crate) fn block_part(
    alloc: Global,
    block: Arc<Block, Global>,
    get: Seen<Entry>,
    schema: &Arc<Schema, Global>,
) -> Result<Arc<Part, Global>, AllocError>
    requires { IsAccepted (arc_value schema.now) get.value (arc_value block) }
    ensures of_block { IfOk result (λ part.
        IsOfBlock (arc_value schema.now) get (arc_value block) (arc_value part)) }
    ensures part { IfOk result (λ part. IsPart (arc_value part)) }
    ensures few_rows { IfOk result (λ part. length (arc_value part).body.rows < 2 ^ 32) }
{
    // The block's type says that it has fewer than 2^32 rows.
    let _len = block.len();
    let part = from_block(alloc, block, get, schema)?;
    // What the type keeps is known where a field is read.
    let _name = part.name();
    let shared = Arc::new(alloc, part)?;
    Ok(shared)
}

/// The part of the Merge of a token, made of its sources. At an error no memory was left.
fn merged_part(
    alloc: Global,
    sources: &[Arc<Part, Global>],
    merge: Seen<Entry>,
) -> Result<Arc<Part, Global>, AllocError>
    requires { IsMergeOf merge (map arc_value sources.now) }
    ensures merged { IfOk result (λ part.
        IsMerged merge (map arc_value sources.now) (arc_value part)) }
    ensures part { IfOk result (λ part. IsPart (arc_value part)) }
{
    let part = merged(alloc, sources, merge)?;
    // What the type keeps is known where a field is read.
    let _name = part.name();
    let shared = Arc::new(alloc, part)?;
    Ok(shared)
}

/// The part of the Mutate of a token, made of the old one and all mutations up to the Mutate's. At an error no memory was left.
fn mutated_part(
    alloc: Global,
    old: &Arc<Part, Global>,
    mutations: &Arc<List<Seen<Entry>>, Global>,
    mutate: Seen<Entry>,
) -> Result<Arc<Part, Global>, AllocError>
    requires { IsMutateOf mutate (arc_value old.now) (arc_value mutations.now) }
    ensures mutated { IfOk result (λ part.
        IsMutated mutate (arc_value old.now) (arc_value mutations.now) (arc_value part)) }
    ensures part { IfOk result (λ part. IsPart (arc_value part)) }
{
    let part = mutated(alloc, old, mutate, mutations)?;
    // What the type keeps is known where a field is read.
    let _name = part.name();
    let shared = Arc::new(alloc, part)?;
    Ok(shared)
}

/// Builds the part of what was taken out of a replica; none where no part is needed, or one is missing. At an error no memory
/// was left, and what was taken is gone.
pub fn build(
    alloc: Global,
    taken: Taken,
    schema: &Arc<Schema, Global>,
) -> Result<Option<Arc<Part, Global>>, AllocError>
    requires can_build { CanBuild taken }
    requires accepted { HasAccepted (arc_value schema.now) taken }
    ensures ok { IfOk result (λ part.
        BuildsPart (arc_value schema.now) taken (option_map arc_value part)) }
    ensures part { IfOk result (λ part. IfSome (option_map arc_value part) IsPart) }
{
    match taken {
        Taken::Block { block, get } => {
            let part = block_part(alloc, block, get, schema)?;
            Ok(Some(part))
        }
        Taken::Sources { sources, merge } => {
            let part = merged_part(alloc, &sources, merge)?;
            Ok(Some(part))
        }
        Taken::Old {
            old,
            mutations,
            mutate,
        } => {
            let part = mutated_part(alloc, &old, &mutations, mutate)?;
            Ok(Some(part))
        }
        Taken::Nothing | Taken::Missing(_) => Ok(None),
    }
}
