//! The window of kept ids: the ids of the blocks accepted last, each with the part that its block got.
ghost use Rattle.std.specs.Prelude.{◌≡◌, ◌≤◌, ◌<◌, ◌+◌, ◌∷◌, [], length, take, drop, filter, None, Some, OnOk, slice_get};
ghost use Rattle.indexmap.specs.IndexMap.{spare};
ghost use Rattle.rmt_table_model.specs.Kept.{outlives, with_id};
ghost use Rattle.rmt_table_model.specs.Inserts.{part_of};
ghost use Rattle.rmt_inserts.specs.Windows.{placed_as, placed_of, newest_first, AreOfParts};
ghost use Rattle.rmt_inserts.specs.Inside.{spares, gone_after, Excludes};

use crate::kept_block::KeptBlock;
use indexmap::IndexMap;
use rmt_block::BlockId;
use rmt_names::{PartName, PartitionId};
use std::alloc::{AllocError, Global};
use std::marker::Model;

/// The ids of the blocks accepted last, each with the part that its block got. Contracts see the list of the kept blocks,
/// the newest first, how many were kept so far, and how many more fit with no memory.
#[derive(Drop)]
pub struct Window {
    /// The kept ids in the order of acceptance, after some that were let go.
    blocks: IndexMap<BlockId, KeptBlock>,
    /// How many of these were let go.
    gone: usize,
    /// How many ids were kept so far.
    count: u32,
}

impl Model for Window {
    ghost use Rattle.std.specs.Prelude.{◌≤◌, length, drop};
    ghost use Rattle.std.specs.Coded.{codes};
    ghost use Rattle.indexmap.specs.IndexMap.{spare};
    ghost use Rattle.rmt_inserts.specs.Windows.{WindowView, newest_first, AreOfParts};

    ghost Value = { WindowView };

    ghost coded = { Prim.hlevel codes };

    ghost view = { λ w. record { placed = newest_first (drop w.gone w.blocks.entries); count = w.count; room = spare w.blocks } };

    ghost invariant = { λ w. AreOfParts w.blocks.entries × (w.gone ≤ length w.blocks.entries) };
}

/// Whether a drop of a partition's numbers below this one leaves a part.
pub(crate) fn spares(part: &PartName, partition: PartitionId, below: u32) -> bool
    ensures { result ≡ spares partition below part.now }
{
    if part.partition() != partition {
        return true;
    }
    part.min() >= below
}

/// Takes the first entries out. It takes no memory.
fn settle(blocks: &mut IndexMap<BlockId, KeptBlock>, gone: usize)
    requires within { gone ≤ length blocks.old.entries }
    ensures rest { blocks.new.entries ≡ drop gone blocks.old.entries }
    ensures room { spare blocks.old ≤ spare blocks.new }
{
    for _entry in blocks.drain(..gone) {}
}

/// Takes the ids that were let go out, where there are more than `limit` of them, or where this one is among them. The
/// number of those that are left comes back. It takes no memory.
fn without_gone(
    blocks: &mut IndexMap<BlockId, KeptBlock>,
    gone: usize,
    id: &BlockId,
    limit: usize,
) -> usize
    requires within { gone ≤ length blocks.old.entries }
    ensures within { result ≤ length blocks.new.entries }
    ensures rest { drop result blocks.new.entries ≡ drop gone blocks.old.entries }
    ensures parts { AreOfParts blocks.old.entries → AreOfParts blocks.new.entries }
    ensures absent { Excludes id.now (drop gone blocks.old.entries) → Excludes id.now blocks.new.entries }
    ensures room { spare blocks.old ≤ spare blocks.new }
{
    let few = gone <= limit;
    if few && !blocks.contains_key(id) {
        return gone;
    }
    settle(blocks, gone);
    0
}

/// How many of so many entries were let go once `limit` of them are kept at most, where there is one too many at most.
fn gone_after(len: usize, gone: usize, limit: usize) -> usize
    requires within { gone ≤ len }
    ensures { result ≡ gone_after limit gone len }
{
    if len - gone > limit { gone + 1 } else { gone }
}

impl Window {
    /// Makes a window without ids.
    pub fn new(alloc: Global) -> Window
        ensures placed { result.placed ≡ [] }
        ensures count { result.count ≡ 0 }
    {
        Window {
            blocks: IndexMap::new(alloc),
            gone: 0,
            count: 0,
        }
    }

    /// Makes room for one id. At an error no memory was left, and the same ids are kept.
    pub fn reserve(&mut self) -> Result<(), AllocError>
        ensures placed { self.new.placed ≡ self.old.placed }
        ensures count { self.new.count ≡ self.old.count }
        ensures ok { OnOk result (1 ≤ self.new.room) }
    {
        self.blocks.reserve(1)
    }

    /// How many ids are kept. It takes no memory.
    pub fn len(&self) -> usize
        ensures { result ≡ length self.now.placed }
    {
        self.blocks.len() - self.gone
    }

    /// How many ids were kept so far, also in a window of 0. It takes no memory.
    pub fn count(&self) -> u32
        ensures { result ≡ self.now.count }
    {
        self.count
    }

    /// The part that the block with this id got, if the id is kept. It takes no memory.
    pub fn part(&self, id: &BlockId) -> Option<PartName>
        ensures { result ≡ part_of id.now.partition id.now.digest self.now.placed }
    {
        // Its length says that no two keys are the same.
        let _len = self.blocks.len();
        let Some((i, _, block)) = self.blocks.get_full(id) else {
            return None;
        };
        if i < self.gone {
            return None;
        }
        Some(block.part)
    }

    /// The kept id at a place, counted from the newest. It takes no memory.
    pub(crate) fn at(&self, i: usize) -> (&BlockId, &KeptBlock)
        requires within { i < length self.now.placed }
        ensures { slice_get self.now.placed i ≡ Some (placed_of (result.0.now, result.1.now)) }
    {
        let last = self.blocks.len() - 1;
        let Some(entry) = self.blocks.get_index(last - i) else {
            unreachable!()
        };
        entry
    }

    /// Keeps an id with the part that its block got, and lets the oldest go where more than `limit` are kept then. It takes
    /// no memory.
    pub fn keep(&mut self, id: BlockId, part: PartName, limit: u32)
        requires room { 1 ≤ self.old.room }
        requires few { self.old.count < 4294967295 }
        requires apart { with_id id.partition id.digest self.old.placed ≡ None }
        requires partition { id.partition ≡ part.partition }
        requires within { length self.old.placed ≤ limit }
        ensures placed { self.new.placed ≡ take limit (placed_as id part self.old.count ∷ self.old.placed) }
        ensures count { self.new.count ≡ self.old.count + 1 }
    {
        let limit = limit as usize;
        let gone = without_gone(&mut self.blocks, self.gone, &id, limit);
        let number = self.count;
        let added: Result<_, _> = self.blocks.insert(id, KeptBlock { part, number });
        added.unwrap();
        self.gone = gone_after(self.blocks.len(), gone, limit);
        self.count = number + 1;
    }

    /// Lets the ids go of a partition's blocks below a number. It takes no memory.
    pub fn forget(&mut self, partition: PartitionId, below: u32)
        ensures placed { self.new.placed ≡ filter (outlives partition below) self.old.placed }
        ensures count { self.new.count ≡ self.old.count }
    {
        settle(&mut self.blocks, self.gone);
        self.gone = 0;
        self.blocks.retain(
            |_id: &BlockId, block: &mut KeptBlock| -> bool
                ensures { (result ≡ spares partition below block.old.part) × (block.new ≡ block.old) }
            { spares(&block.part, partition, below) },
        );
    }
}
