ghost use Rattle.std.specs.Prelude.{◌≡◌, ℕ, ◌<◌, ◌≤◌, [], true, false, length, replicate, slice_set, MatchOption, OnOk, OnErr};
ghost use Rattle.rmt_queue.specs.Marks.{done_at, grown, AllDone, IsLowest, IsDonePrefix};

use std::alloc::{AllocError, Global};
use std::marker::Model;

/// A done mark for each place of a log. Contracts see the list of the marks.
#[derive(Debug, Drop)]
pub struct Queue {
    marks: Vec<bool>,
    prefix: usize,
}

impl Model for Queue {
    ghost use Rattle.std.specs.Prelude.{List, Bool};
    ghost use Rattle.rmt_queue.specs.Marks.{IsDonePrefix};

    ghost Value = { List Bool };

    ghost view = { λ q. q.marks.items };

    ghost invariant = { λ q. IsDonePrefix q.marks.items q.prefix };
}

impl Queue {
    /// A queue without places.
    pub fn new(alloc: Global) -> Queue
        ensures { result ≡ [] }
    {
        Queue {
            marks: Vec::new(alloc),
            prefix: 0,
        }
    }

    /// How many places it has.
    pub fn len(&self) -> usize
        ensures { result ≡ length self.now }
    {
        self.marks.len()
    }

    /// Makes room for the marks of so many places. The new ones aren't done; a shorter length changes nothing. At an
    /// error no memory was left, and the marks are as they were.
    pub fn grow(&mut self, len: usize) -> Result<(), AllocError>
        ensures ok { OnOk result (self.new ≡ grown self.old len) }
        ensures err { OnErr result (self.new ≡ self.old) }
    {
        if len > self.marks.len() {
            self.marks.resize(len, false)?;
        }
        Ok(())
    }

    /// Marks a place as done. Over all calls it takes time in proportion to the places.
    pub fn mark(&mut self, i: usize)
        requires { i < length self.old }
        ensures { self.new ≡ slice_set self.old i true }
    {
        self.marks[i] = true;
        self.prefix = prefix_from(&self.marks, self.prefix);
    }

    /// Takes every mark away again; the places stay, and no memory is taken.
    pub fn clear(&mut self)
        ensures { self.new ≡ replicate (length self.old) false }
    {
        self.marks.fill(false);
        self.prefix = 0;
    }

    /// Whether a place is done.
    pub fn done(&self, i: usize) -> bool
        requires { i < length self.now }
        ensures { result ≡ done_at self.now i }
    {
        self.marks[i]
    }

    /// The lowest place that isn't done; none where all are.
    pub fn lowest(&self) -> Option<usize>
        ensures { MatchOption result (AllDone self.now) (IsLowest self.now) }
    {
        if self.prefix < self.marks.len() {
            Some(self.prefix)
        } else {
            None
        }
    }
}

/// The lowest place that isn't done, or the length where all are, given that those below `from` are done.
fn prefix_from(marks: &[bool], from: usize) -> usize
    requires bound { from ≤ length marks.now }
    requires below { (k : ℕ) → k < from → done_at marks.now k ≡ true }
    ensures { IsDonePrefix marks.now result }
{
    'places: for i in from..marks.len() {
        if !marks[i] {
            return i;
        }
    }
    marks.len()
}
