ghost use Rattle.std.specs.Prelude.{◌≡◌, ◌≢◌};
ghost use Rattle.std.specs.Arc.{arc_value};
ghost use Rattle.rmt_block.specs.Blocks.{id_of};
ghost use Rattle.rmt_events.specs.Clusters.{without_kinds};
ghost use Rattle.rmt_cluster.specs.Attempts.{HoldsBlock};

use rmt_block::Block;
use rmt_table::Lock;
use std::alloc::Global;
use std::marker::Model;
use std::sync::Arc;

/// An attempt to insert one block, with the lock on the number that it has, and how many replicas it asks for, 0 where it asks
/// for no quorum. Contracts see it as a cluster does.
#[derive(Drop)]
pub(crate) struct Attempt {
    id: u32,
    block: Arc<Block, Global>,
    lock: Lock,
    need: u32,
}

impl Model for Attempt {
    ghost use Rattle.std.specs.Prelude.{◌≢◌};
    ghost use Rattle.std.specs.Arc.{arc_value};
    ghost use Rattle.rmt_events.specs.Clusters.{Attempt as AttemptView, without_kinds};
    ghost use Rattle.rmt_cluster.specs.Attempts.{HoldsBlock};

    ghost Value = { AttemptView };

    ghost view = { λ a. record { id = a.id; replica = a.lock.replica; block = without_kinds (arc_value a.block); number = a.lock.number; need = a.need } };

    ghost invariant = { λ a. HoldsBlock a.lock (without_kinds (arc_value a.block)) × (a.need ≢ 1) };
}

impl Attempt {
    /// An attempt under a number that was taken for its block.
    pub(crate) fn new(id: u32, block: Arc<Block, Global>, lock: Lock, need: u32) -> Attempt
        requires of { lock.id ≡ id_of (arc_value block) }
        requires need { need ≢ 1 }
        ensures { result ≡ record { id = id; replica = lock.replica; block = without_kinds (arc_value block); number = lock.number; need = need } }
    {
        Attempt {
            id,
            block,
            lock,
            need,
        }
    }

    /// Its number in the order of attempts.
    pub(crate) fn id(&self) -> u32
        ensures { result ≡ self.now.id }
    {
        self.id
    }

    /// Its block.
    pub(crate) fn block(&self) -> &Arc<Block, Global>
        ensures { without_kinds (arc_value result.now) ≡ self.now.block }
    {
        &self.block
    }

    /// The lock on its number.
    pub(crate) fn lock(&self) -> &Lock
        ensures holds { HoldsBlock result.now self.now.block }
        ensures number { result.now.number ≡ self.now.number }
        ensures replica { result.now.replica ≡ self.now.replica }
    {
        &self.lock
    }

    /// How many replicas it asks for, 0 where it asks for no quorum.
    pub(crate) fn need(&self) -> u32
        ensures value { result ≡ self.now.need }
        ensures need { result ≢ 1 }
    {
        self.need
    }

    /// It goes on under another number, which was taken for the same block at the same replica.
    pub(crate) fn renew(&mut self, lock: Lock)
        requires replica { lock.replica ≡ self.old.replica }
        requires holds { HoldsBlock lock self.old.block }
        ensures { self.new ≡ record self.old { number = lock.number } }
    {
        self.lock = lock;
    }
}
