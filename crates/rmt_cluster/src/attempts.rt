ghost use Rattle.std.specs.Prelude.{◌≡◌, ◌≢◌, ◌∷◌, ◌+◌, ◌<◌, ◌^◌, [], OnOk};
ghost use Rattle.std.specs.Arc.{arc_value};
ghost use Rattle.std.specs.Option.{option_copied};
ghost use Rattle.rmt_block.specs.Blocks.{id_of};
ghost use Rattle.rmt_model.specs.Words.{Has, Pairwise};
ghost use Rattle.rmt_events.specs.Clusters.{Attempt as AttemptView, without_kinds};
ghost use Rattle.rmt_events.specs.ClusterChanges.{attempts_without, renumbered};
ghost use Rattle.rmt_cluster.specs.Attempts.{IsFoundBy, HoldsBlock, IsPlaceOf};

use crate::attempt::Attempt;
use rmt_block::Block;
use rmt_table::Lock;
use std::alloc::{AllocError, Global};
use std::marker::Model;
use std::sync::Arc;

/// The attempts of inserts that are open, and how many were made. Contracts see the latest first.
#[derive(Drop)]
pub(crate) struct Attempts {
    made: u32,
    /// In the order of their ids.
    attempts: Vec<Attempt>,
}

impl Model for Attempts {
    ghost use Rattle.std.specs.Prelude.{◌-◌, reverse, vec_len, vec_capacity};
    ghost use Rattle.rmt_cluster.specs.Attempts.{OpenAttempts, AreInOrder};

    ghost Value = { OpenAttempts };

    ghost view = { λ a. record { made = a.made; open_ones = reverse a.attempts.items; room = vec_capacity a.attempts - vec_len a.attempts } };

    ghost invariant = { λ a. AreInOrder a.made a.attempts.items };
}

/// The place of the attempt of an id.
fn place_of(attempts: &[Attempt], id: u32) -> Option<usize>
    requires { Pairwise (λ a b. a.id < b.id) attempts.now }
    ensures { IsPlaceOf attempts.now id result }
{
    let at = attempts.partition_point(|attempt| attempt.id() < id);
    if at >= attempts.len() {
        return None;
    }
    if attempts[at].id() != id {
        return None;
    }
    Some(at)
}

impl Attempts {
    /// None, and none was made.
    pub(crate) fn new(alloc: Global) -> Attempts
        ensures made { result.made ≡ 0 }
        ensures none { result.open_ones ≡ [] }
    {
        Attempts {
            made: 0,
            attempts: Vec::new(alloc),
        }
    }

    /// How many were made.
    pub(crate) fn made(&self) -> u32
        ensures made { result ≡ self.now.made }
    {
        self.made
    }

    /// Makes room for one more. At an error no memory was left.
    pub(crate) fn reserve(&mut self) -> Result<(), AllocError>
        ensures made { self.new.made ≡ self.old.made }
        ensures same { self.new.open_ones ≡ self.old.open_ones }
        ensures ok { OnOk result (0 < self.new.room) }
    {
        self.attempts.reserve(1)?;
        Ok(())
    }

    /// An attempt begins, under a number that was taken for its block, which asks for so many replicas. Its id comes back. It
    /// takes no memory.
    pub(crate) fn begin(&mut self, block: Arc<Block, Global>, lock: Lock, need: u32) -> u32
        requires room { 0 < self.old.room }
        requires few { self.old.made + 1 < 2 ^ 32 }
        requires holds { lock.id ≡ id_of (arc_value block) }
        requires need { need ≢ 1 }
        ensures id { result ≡ self.old.made }
        ensures made { self.new.made ≡ self.old.made + 1 }
        ensures begins { self.new.open_ones ≡ record { id = self.old.made; replica = lock.replica; block = without_kinds (arc_value block); number = lock.number; need = need } ∷ self.old.open_ones }
    {
        let id = self.made;
        self.attempts
            .push(Attempt::new(id, block, lock, need))
            .unwrap();
        self.made += 1;
        id
    }

    /// The open attempt of an id.
    pub(crate) fn find(&self, id: u32) -> Option<&Attempt>
        ensures { IsFoundBy self.now.open_ones id (option_copied result) }
    {
        match place_of(&self.attempts, id) {
            Some(at) => Some(&self.attempts[at]),
            None => None,
        }
    }

    /// The attempt of an id, which is open, goes on under another number, which was taken for the same block at the same
    /// replica. It takes no memory.
    pub(crate) fn renew(&mut self, id: u32, lock: Lock)
        requires found { (a : AttemptView) × Has self.old.open_ones a × (a.id ≡ id) × (lock.replica ≡ a.replica) × HoldsBlock lock a.block }
        ensures made { self.new.made ≡ self.old.made }
        ensures renews { self.new.open_ones ≡ renumbered self.old.open_ones id lock.number }
    {
        if let Some(at) = place_of(&self.attempts, id) {
            self.attempts[at].renew(lock);
        }
    }

    /// The attempt of an id ends, where one is open. It takes no memory.
    pub(crate) fn end(&mut self, id: u32)
        ensures made { self.new.made ≡ self.old.made }
        ensures ends { self.new.open_ones ≡ attempts_without self.old.open_ones id }
    {
        if let Some(at) = place_of(&self.attempts, id) {
            self.attempts.remove(at);
        }
    }
}
