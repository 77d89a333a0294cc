//! The part that a replica makes of the bytes that another one sent.
ghost use Rattle.std.specs.Prelude.{◌≡◌, IfOk};
ghost use Rattle.std.specs.Arc.{arc_value};
ghost use Rattle.rmt_compact.specs.SentParts.{AreBytesOf};

use crate::gathered::push_blocks;
use rmt_format::{DecodeError, decode};
use rmt_granules::PartData;
use rmt_part::Part;
use std::alloc::{AllocError, Global};
use std::sync::Arc;

/// Makes the part of its bytes: its rows are decoded from them, and are those of the part lent, whose memory it shares. Its
/// token, its blocks and its mutations are that part's own. At an error no memory was left: the part lent is unchanged, and its
/// bytes can be decoded again.
pub fn refetched(alloc: Global, part: &Part, bytes: &[u8]) -> Result<Part, AllocError>
    requires { AreBytesOf part.now bytes.now }
    ensures { IfOk result (λ other. other ≡ part.now) }
{
    let body = decoded(alloc, part, bytes)?;
    let body = shared(body, part.body())?;
    let made = part.made().copy()?;
    let mut blocks = Vec::new(alloc);
    push_blocks(&mut blocks, part.blocks())?;
    let schema = Arc::try_clone(part.schema())?;
    let mutations = Arc::try_clone(part.mutations())?;
    Ok(Part::of(schema, *part.name(), body, made, blocks, mutations))
}

/// The rows that are decoded from a part's bytes.
fn decoded(alloc: Global, part: &Part, bytes: &[u8]) -> Result<PartData, AllocError>
    requires { AreBytesOf part.now bytes.now }
    ensures { IfOk result (λ body. body ≡ part.now.body) }
{
    match decode(alloc, bytes, part.schema()) {
        Ok(body) => Ok(body),
        Err(DecodeError::Memory) => Err(AllocError),
        Err(DecodeError::NotAPart) => unreachable!(),
    }
}

/// Rows in the memory of equal ones. Their own memory is free again.
fn shared(body: PartData, lent: &Arc<PartData, Global>) -> Result<Arc<PartData, Global>, AllocError>
    requires { body ≡ arc_value lent.now }
    ensures { IfOk result (λ one. arc_value one ≡ body) }
{
    let one = Arc::try_clone(lent)?;
    Ok(one)
}
