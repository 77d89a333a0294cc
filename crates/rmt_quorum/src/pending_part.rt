ghost use Rattle.std.specs.Prelude.{◌≡◌, ◌↔◌, ◌<◌, [], length, IfOk, IsTrue};
ghost use Rattle.rmt_model.specs.Words.{Has};

use crate::noted_replicas::has;
use rmt_names::PartName;
use rmt_values::ReplicaId;
use std::alloc::{AllocError, Global};
use std::marker::Model;

/// The part that waits for its quorum: how many replicas it needs, and those that have noted it, which are fewer, the lowest
/// number first.
#[derive(Drop)]
pub struct PendingPart {
    pub(crate) part: PartName,
    pub(crate) need: u32,
    pub(crate) noted: Vec<ReplicaId>,
}

impl Model for PendingPart {
    ghost use Rattle.std.specs.Prelude.{◌<◌, length};
    ghost use Rattle.rmt_model.specs.Quorum.{Pending};

    ghost Value = { Pending };

    ghost view = { λ p. record { part = p.part; need = p.need; noted = p.noted.items } };

    ghost invariant = { λ p. (length p.noted.items < p.need) × (p.need < 4294967296) };
}

impl PendingPart {
    /// A part that needs so many replicas, and that none has noted.
    pub(crate) fn new(alloc: Global, part: PartName, need: u32) -> PendingPart
        requires { 0 < need }
        ensures { result ≡ record { part = part; need = need; noted = [] } }
    {
        PendingPart {
            part,
            need,
            noted: Vec::new(alloc),
        }
    }

    /// Returns a copy. At an error no memory was left.
    pub(crate) fn copy(&self, alloc: Global) -> Result<PendingPart, AllocError>
        ensures { IfOk result (λ copy. copy ≡ self.now) }
    {
        let noted = Vec::from_slice(alloc, &self.noted)?;
        let PendingPart { part, need, .. } = self;
        Ok(PendingPart {
            part: *part,
            need: *need,
            noted,
        })
    }

    /// The part.
    pub fn part(&self) -> PartName
        ensures { result ≡ self.now.part }
    {
        self.part
    }

    /// How many replicas it needs.
    pub fn need(&self) -> u32
        ensures { result ≡ self.now.need }
    {
        self.need
    }

    /// The replicas that have noted it.
    pub fn noted(&self) -> &[ReplicaId]
        ensures { result.now ≡ self.now.noted }
    {
        &self.noted
    }

    /// How many replicas have noted it, which are fewer than it needs.
    pub fn count(&self) -> u32
        ensures value { result ≡ length self.now.noted }
        ensures few { result < self.now.need }
    {
        self.noted.len() as u32
    }

    /// Whether a replica has noted it.
    pub fn has_noted(&self, replica: ReplicaId) -> bool
        ensures fact { IsTrue result ↔ Has self.now.noted replica }
        ensures few { length self.now.noted < 4294967295 }
    {
        has(&self.noted, replica)
    }
}
