//! The data, the blocks and the mutations of several parts.
ghost use Rattle.std.specs.Prelude.{◌≡◌, ◌<◌, ◌++◌, map, length, IfOk, OnOk};
ghost use Rattle.std.specs.Arc.{arc_value};
ghost use Rattle.rmt_model.specs.Words.{Each};
ghost use Rattle.rmt_part.specs.Lineages.{IsPart};
ghost use Rattle.rmt_compact.specs.NewParts.{bodies_of, blocks_joined, most_tokens};

use rmt_entries::Entry;
use rmt_granules::PartData;
use rmt_list::List;
use rmt_part::{Accepted, Part};
use rmt_row::Seen;
use std::alloc::{AllocError, Global};
use std::sync::Arc;

/// The data of parts, which it shares.
pub(crate) fn bodies(
    alloc: Global,
    parts: &[Arc<Part, Global>],
) -> Result<Vec<Arc<PartData, Global>>, AllocError>
    ensures bodies { IfOk result (λ all. map arc_value all.items ≡ bodies_of (map arc_value parts.now)) }
    ensures parts { IfOk result (λ _. Each IsPart (map arc_value parts.now)) }
{
    let mut all = Vec::with_capacity(alloc, parts.len())?;
    'parts: for part in parts {
        let body = Arc::try_clone(part.body())?;
        all.push(body)?;
    }
    Ok(all)
}

/// The blocks of parts, one part after the other.
pub(crate) fn blocks(
    alloc: Global,
    parts: &[Arc<Part, Global>],
) -> Result<Vec<Accepted>, AllocError>
    ensures { IfOk result (λ all. all.items ≡ blocks_joined (map arc_value parts.now)) }
{
    let mut all = Vec::new(alloc);
    'parts: for part in parts {
        let blocks = part.blocks();
        push_blocks(&mut all, blocks)?;
    }
    Ok(all)
}

/// Adds copies of these blocks at the end.
pub(crate) fn push_blocks(all: &mut Vec<Accepted>, blocks: &[Accepted]) -> Result<(), AllocError>
    ensures { OnOk result (all.new.items ≡ all.old.items ++ blocks.now) }
{
    'copies: for block in blocks {
        let copy = block.copy()?;
        all.push(copy)?;
    }
    Ok(())
}

/// The longest list of mutations of parts, the first of such, which it shares. There is a part.
pub(crate) fn most_mutations(
    parts: &[Arc<Part, Global>],
) -> Result<Arc<List<Seen<Entry>>, Global>, AllocError>
    requires { 0 < length parts.now }
    ensures { IfOk result (λ tokens. arc_value tokens ≡ most_tokens (map arc_value parts.now)) }
{
    let mut i = parts.len() - 1;
    let mut best = i;
    'parts: while i > 0 {
        i -= 1;
        if count_of(&parts[best]) <= count_of(&parts[i]) {
            best = i;
        }
    }
    let tokens = Arc::try_clone(parts[best].mutations())?;
    Ok(tokens)
}

/// How many mutations the part has.
fn count_of(part: &Part) -> usize
    ensures { result ≡ length part.now.mutations }
{
    part.mutations().len()
}
