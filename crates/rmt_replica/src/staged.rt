ghost use Rattle.std.specs.Prelude.{◌≡◌, [], OnOk, OnErr};
ghost use Rattle.std.specs.Option.{option_map, option_copied};
ghost use Rattle.std.specs.Arc.{arc_value};
ghost use Rattle.rmt_replica.specs.StagedBlocks.{staged_at, with_staged, without};

use crate::block_number::BlockNumber;
use rmt_block::Block;
use std::alloc::{AllocError, Global};
use std::collections::BTreeMap;
use std::marker::Model;
use std::sync::Arc;

/// The blocks that wait for their Get, by partition and number. Contracts see the list of them, in order.
#[derive(Drop)]
pub(crate) struct Staging {
    blocks: BTreeMap<BlockNumber, Arc<Block, Global>>,
}

impl Model for Staging {
    ghost use Rattle.std.specs.Prelude.{map};
    ghost use Rattle.std.specs.Arc.{arc_value};
    ghost use Rattle.rmt_replica.specs.StagedBlocks.{Staged};

    ghost Value = { Staged };

    ghost view = { λ s. map (λ e. (e.0, arc_value e.1)) s.blocks.entries };
}

impl Staging {
    /// One without blocks.
    pub(crate) fn new(alloc: Global) -> Staging
        ensures { result ≡ [] }
    {
        Staging {
            blocks: BTreeMap::new(alloc),
        }
    }

    /// Keeps a block under its number, in place of what was there. At an error no memory was left, and the blocks are as
    /// they were.
    pub(crate) fn put(
        &mut self,
        at: BlockNumber,
        block: Arc<Block, Global>,
    ) -> Result<(), AllocError>
        ensures ok { OnOk result (self.new ≡ with_staged self.old at (arc_value block)) }
        ensures err { OnErr result (self.new ≡ self.old) }
    {
        self.blocks.insert(at, block)?;
        Ok(())
    }

    /// Lets the block go that is kept under this number.
    pub(crate) fn take(&mut self, at: BlockNumber)
        ensures { self.new ≡ without self.old at }
    {
        self.blocks.remove(&at);
    }

    /// The block that is kept under this number.
    pub(crate) fn get(&self, at: BlockNumber) -> Option<&Arc<Block, Global>>
        ensures { option_map arc_value (option_copied result) ≡ staged_at self.now at }
    {
        self.blocks.get(&at)
    }
}
