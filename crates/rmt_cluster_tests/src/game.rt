//! A cluster that is played with.
use crate::answers::Answer;
use crate::draws::Draws;
use crate::moves::{Move, has_replica, step};
use crate::played::new_cluster;
use crate::reading::replica_of;
use crate::record::Record;
use crate::turns::turn;
use rmt_cluster::Cluster;
use rmt_values::{ReplicaId, Schema};
use std::alloc::Global;
use std::sync::Arc;
use std::test::Fail;

/// A cluster, and a record of what it answered.
#[derive(Drop)]
pub(crate) struct Game {
    pub cluster: Cluster,
    pub record: Record,
}

impl Game {
    /// A new cluster, whose replicas are up.
    pub fn new(alloc: Global, schema: Arc<Schema, Global>, up: &[bool]) -> Result<Game, Fail> {
        let cluster = new_cluster(alloc, schema, up)?;
        let record = Record::new(alloc);
        Ok(Game { cluster, record })
    }

    /// Does an event.
    pub fn does(&mut self, alloc: Global, next: Move) -> Result<Answer, Fail> {
        let answer = step(&mut self.cluster, alloc, next)?;
        self.record.note(next, answer)?;
        Ok(answer)
    }

    /// Does so many events that a generator draws.
    pub fn plays(&mut self, alloc: Global, seed: u32, turns: usize) -> Result<(), Fail> {
        let mut draws = Draws::new(seed);
        for _turn in 0..turns {
            let next = turn(&mut draws, &self.cluster, &self.record);
            self.does(alloc, next)?;
        }
        Ok(())
    }

    /// The numbers of the replicas go up to this one.
    fn last(&self) -> ReplicaId {
        match self.cluster.state().replicas().last() {
            Some(worker) => worker.number(),
            None => 0,
        }
    }

    /// Restarts each replica that is down.
    pub fn wakes(&mut self, alloc: Global) -> Result<(), Fail> {
        for replica in 1..=self.last() {
            if !replica_of(&self.cluster, replica)?.is_up() {
                self.does(alloc, Move::Restart(replica))?;
            }
        }
        Ok(())
    }

    /// A replica pulls the log, whose length comes back.
    fn pulls(&mut self, alloc: Global, replica: ReplicaId) -> Result<u32, Fail> {
        match self.does(alloc, Move::Pull(replica))? {
            Answer::Pulled(len) => Ok(len),
            _ => Err("a replica that is up doesn't pull".into()),
        }
    }

    /// Each replica pulls the log, and tries its entries from the last one on.
    pub fn tries_backwards(&mut self, alloc: Global) -> Result<(), Fail> {
        for replica in 1..=self.last() {
            let len = self.pulls(alloc, replica)?;
            for back in 1..=len {
                self.does(alloc, Move::Apply(replica, len - back))?;
            }
        }
        Ok(())
    }

    /// Each replica pulls the log, and does its entries in order. Tells whether each was done.
    pub fn drains(&mut self, alloc: Global) -> Result<bool, Fail> {
        for replica in 1..=self.last() {
            if !self.drains_one(alloc, replica)? {
                return Ok(false);
            }
        }
        Ok(true)
    }

    fn drains_one(&mut self, alloc: Global, replica: ReplicaId) -> Result<bool, Fail> {
        let len = self.pulls(alloc, replica)?;
        for entry in 0..len {
            let answer = self.does(alloc, Move::Apply(replica, entry))?;
            if !matches!(answer, Answer::Applied(_)) {
                return Ok(false);
            }
        }
        Ok(true)
    }

    /// So many background events happen, which a generator draws.
    pub fn runs(&mut self, alloc: Global, seed: u32, turns: u32) -> Result<(), Fail> {
        if seed >= 1 << 31 {
            return Err("the seed is too great".into());
        }
        self.cluster.run(alloc, seed, turns)?;
        Ok(())
    }

    /// Each replica is brought to the whole log.
    pub fn syncs(&mut self, alloc: Global) -> Result<(), Fail> {
        for replica in 1..=self.last() {
            has_replica(&self.cluster, replica)?;
            if self.cluster.sync(alloc, replica).is_err() {
                return Err("a replica isn't brought to the whole log".into());
            }
        }
        Ok(())
    }
}
