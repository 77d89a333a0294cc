//! What a test knows of a cluster by the answers to its events.
ghost use Rattle.std.specs.Prelude.{◌<◌, IfSome, vec_len};

use crate::answers::{Answer, Refusal};
use crate::draws::Draws;
use crate::moves::Move;
use crate::rows::Numbers;
use rmt_names::PartitionId;
use std::alloc::{AllocError, Global};

/// What an attempt does next, where nothing comes between.
#[derive(Clone, Copy)]
pub(crate) enum Next {
    Stage,
    Commit,
    Again,
}

/// An open attempt to insert a block: its number, the block's rows and the block's number.
#[derive(Clone, Copy)]
pub(crate) struct Attempt {
    pub attempt: u32,
    pub rows: Numbers,
    pub number: u32,
    pub next: Next,
}

/// What an accepted event made.
#[derive(Clone, Copy)]
pub(crate) enum Made {
    /// The block of these rows, under this number.
    Block(Numbers, u32),
    /// The mutation of this command.
    Mutation(&'static str),
    /// The drop of a partition.
    Drop(PartitionId),
}

/// The open attempts, and what was accepted, with the place of its entry.
#[derive(Drop)]
pub(crate) struct Record {
    attempts: Vec<Attempt>,
    accepted: Vec<(u32, Made)>,
}

impl Record {
    /// A record of nothing.
    pub fn new(alloc: Global) -> Record {
        Record {
            attempts: Vec::new(alloc),
            accepted: Vec::new(alloc),
        }
    }

    /// What was accepted, with the places of the entries, in order.
    pub fn accepted(&self) -> &[(u32, Made)] {
        &self.accepted
    }

    /// An open attempt that is drawn; none where none is open.
    pub fn drawn(&self, draws: &mut Draws) -> Option<Attempt> {
        let count = self.attempts.len();
        if count == 0 {
            return None;
        }
        Some(self.attempts[draws.below(count)])
    }

    /// Takes note of the answer to an event.
    pub fn note(&mut self, event: Move, answer: Answer) -> Result<(), AllocError> {
        match (event, answer) {
            (Move::Allocate(_, rows), Answer::Attempt(attempt, number)) => self.begin(
                attempt, rows, number,
            ),
            (Move::Again(attempt), Answer::Attempt(_, number)) => {
                self.renew(attempt, number);
                Ok(())
            }
            (Move::Stage(attempt), Answer::Done) => {
                self.goes_on(attempt, Next::Commit);
                Ok(())
            }
            (Move::Commit(attempt), _) => self.note_commit(attempt, answer),
            (Move::Abandon(attempt), Answer::Done) => {
                self.end(attempt);
                Ok(())
            }
            (Move::Create(script), Answer::Entry(place)) => self.add(place, Made::Mutation(script)),
            (Move::Drop(partition), Answer::Entry(place)) => self.add(place, Made::Drop(partition)),
            _ => Ok(()),
        }
    }

    /// Takes note of the answer to a commit.
    fn note_commit(&mut self, attempt: u32, answer: Answer) -> Result<(), AllocError> {
        match answer {
            Answer::Entry(place) => {
                let Some(ended) = self.end(attempt) else {
                    return Ok(());
                };
                self.add(place, Made::Block(ended.rows, ended.number))
            }
            Answer::Refused(Refusal::LockGone(_)) => {
                self.goes_on(attempt, Next::Again);
                Ok(())
            }
            Answer::Refused(Refusal::Duplicate(_)) => {
                self.end(attempt);
                Ok(())
            }
            _ => Ok(()),
        }
    }

    fn add(&mut self, place: u32, made: Made) -> Result<(), AllocError> {
        self.accepted.push((place, made))?;
        Ok(())
    }

    fn begin(&mut self, attempt: u32, rows: Numbers, number: u32) -> Result<(), AllocError> {
        self.attempts.push(Attempt {
            attempt,
            rows,
            number,
            next: Next::Stage,
        })?;
        Ok(())
    }

    /// The place of an open attempt.
    fn find(&self, attempt: u32) -> Option<usize>
        ensures { IfSome result (λ at. at < vec_len self.now.attempts) }
    {
        self.attempts
            .iter()
            .position(|open| open.attempt == attempt)
    }

    fn renew(&mut self, attempt: u32, number: u32) {
        if let Some(at) = self.find(attempt) {
            let open = &mut self.attempts[at];
            open.number = number;
            open.next = Next::Stage;
        }
    }

    fn goes_on(&mut self, attempt: u32, next: Next) {
        if let Some(at) = self.find(attempt) {
            self.attempts[at].next = next;
        }
    }

    fn end(&mut self, attempt: u32) -> Option<Attempt> {
        let at = self.find(attempt)?;
        Some(self.attempts.remove(at))
    }
}
