//! Blocks that are staged at a replica.
ghost use Rattle.std.specs.Prelude.{◌≡◌, is_some, IfOk};
ghost use Rattle.std.specs.Arc.{arc_value};
ghost use Rattle.std.specs.Option.{option_map};
ghost use Rattle.rmt_supply.specs.PartSources.{staged_for};

use rmt_block::Block;
use rmt_entries::Entry;
use rmt_replica::Replica;
use rmt_row::Seen;
use std::alloc::{AllocError, Global};
use std::sync::Arc;

/// Whether a block is staged at a holder for the entry of a token.
pub(crate) fn is_staged(holder: &Replica, token: &Seen<Entry>) -> bool
    ensures { result ≡ is_some (staged_for holder.now token.now.value) }
{
    let Entry::Get {
        partition,
        number,
        ..
    } = token.value()
    else {
        return false;
    };
    match holder.staged(*partition, *number) {
        Some(_) => true,
        None => false,
    }
}

/// Shares the block that is staged at a holder for the entry of a token; none where none is. At an error no memory was left.
pub(crate) fn staged_block(
    holder: &Replica,
    token: &Seen<Entry>,
) -> Result<Option<Arc<Block, Global>>, AllocError>
    ensures { IfOk result (λ block.
        option_map arc_value block ≡ staged_for holder.now token.now.value) }
{
    let Entry::Get {
        partition,
        number,
        ..
    } = token.value()
    else {
        return Ok(None);
    };
    let Some(block) = holder.staged(*partition, *number) else {
        return Ok(None);
    };
    let shared = Arc::try_clone(block)?;
    Ok(Some(shared))
}
