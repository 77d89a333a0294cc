//! Quorum inserts: notes of the part that waits, and what is kept of them.
ghost use Rattle.std.specs.Prelude.{◌≡◌, ◌↔◌, ◌<◌, ◌≤◌, cond, length, MatchOption, IfOk, IsTrue, OnErr};
ghost use Rattle.std.specs.Option.{option_map};
ghost use Rattle.rmt_events.specs.TableRefusals.{HasQuorum};
ghost use Rattle.rmt_table.specs.SeenTable.{opened_from};
ghost use Rattle.rmt_table.specs.TableTrees.{table_at, IsReplica};
ghost use Rattle.rmt_table.specs.Quorums.{NoQuorum, IsNotedAt, IsQuorumNote, IsShownQuorum};

use crate::ops::multi;
use crate::quorum::Quorum;
use crate::quorum_error::QuorumError;
use crate::table_tree::TableTree;
use rmt_names::PartName;
use rmt_values::ReplicaId;
use std::alloc::{AllocError, Global};

/// 1 for what is there, 0 for what isn't.
fn count_one(there: bool) -> usize
    ensures value { result ≡ cond there 1 0 }
    ensures most { result ≤ 1 }
{
    if there {
        return 1;
    }
    0
}

/// How many of the sessions are there.
fn count_open(sessions: &[Option<u64>]) -> usize
    ensures { result ≡ length (opened_from 1 sessions.now) }
{
    let mut count = 0;
    'sessions: for session in sessions {
        count += count_one(session.is_some());
    }
    count
}

/// A count below a number of 32 bits.
fn small(count: usize, need: u32) -> u32
    requires { count < need }
    ensures { result ≡ count }
{
    count as u32
}

impl TableTree {
    /// How many replicas have a session.
    fn live(&self) -> usize
        ensures { result ≡ length (table_at self.now).sessions }
    {
        count_open(&self.sessions)
    }

    /// Why an insert that asks for so many replicas isn't taken.
    pub(crate) fn quorum_refusal(&self, need: u32) -> Option<QuorumError>
        ensures { MatchOption result (HasQuorum (table_at self.now) need) (NoQuorum (table_at self.now) need) }
    {
        let live = self.live();
        if live < need as usize {
            let live = small(live, need);
            return Some(QuorumError::TooFewLive { live, need });
        }
        if need < 2 {
            return None;
        }
        let Some(part) = self.pending_part() else {
            return None;
        };
        Some(QuorumError::QuorumPending(part))
    }

    /// The part that waits for its quorum. It takes no memory.
    pub fn pending_part(&self) -> Option<PartName>
        ensures { result ≡ option_map (λ q. q.part) self.now.quorum.pending }
    {
        match self.quorum.pending() {
            Some(pending) => Some(pending.part()),
            None => None,
        }
    }

    /// Whether a part waits for its quorum that the replica is noted for. It takes no memory.
    pub fn has_noted(&self, replica: ReplicaId) -> bool
        ensures { IsTrue result ↔ IsNotedAt self.now.quorum.pending replica }
    {
        match self.quorum.pending() {
            Some(pending) => pending.has_noted(replica),
            None => false,
        }
    }

    /// What there is of quorum inserts. It takes no memory.
    pub fn quorum(&self) -> Quorum
        ensures { IsShownQuorum self.now.quorum result }
    {
        let last = self.quorum.last();
        match self.quorum.pending() {
            Some(pending) => Quorum {
                pending: Some(pending.part()),
                have: pending.count(),
                need: pending.need(),
                last,
            },
            None => Quorum {
                pending: None,
                have: 0,
                need: 0,
                last,
            },
        }
    }

    /// Notes a replica for a part, where that part waits for its quorum, and tells whether it does. Where as many replicas have
    /// noted it as it needs, it is the last part then, and none waits.
    ///
    /// At an error no memory was left, and the table is as it was.
    pub fn note_quorum(
        &mut self,
        alloc: Global,
        replica: ReplicaId,
        part: &PartName,
    ) -> Result<bool, AllocError>
        requires here { IsReplica self.old replica }
        ensures noted { IfOk result (λ noted. IsQuorumNote self.old replica part.now noted self.new) }
        ensures err { OnErr result (self.new ≡ self.old) }
        ensures replicas { length self.new.sessions ≡ length self.old.sessions }
        ensures row { self.new.row ≡ self.old.row }
    {
        let Some(pending) = self.quorum.pending() else {
            return Ok(false);
        };
        if pending.part() != *part {
            return Ok(false);
        }
        if pending.has_noted(replica) {
            return Ok(true);
        }
        let noted = self.quorum.noted_with(alloc, replica)?;
        let ops = self.quorum.note_ops(alloc, &noted)?;
        multi(&mut self.tree, &ops)?;
        self.quorum.note(replica, noted);
        Ok(true)
    }
}
