ghost use Rattle.std.specs.Prelude.{◌≡◌, ◌↔◌, ◌∷◌, ◌++◌, ◌<◌, ◌≤◌, ◌⊎◌, ℕ, [], true, false, length, replicate, IsTrue, IfOk, OnOk, OnErr, MatchOption, IfSome};
ghost use Rattle.std.specs.Option.{option_map, option_copied};
ghost use Rattle.std.specs.Arc.{arc_value};
ghost use Rattle.rmt_names.specs.Names.{Name, Covers};
ghost use Rattle.rmt_model.specs.Words.{Has, Each};
ghost use Rattle.rmt_model.specs.Lawful.{Lawful, entry_at, MakesAt};
ghost use Rattle.rmt_history.specs.Copies.{History};
ghost use Rattle.rmt_queue.specs.Marks.{done_at};
ghost use Rattle.rmt_replica.specs.declared.replica_error.ReplicaError.TheVariants as errors;
ghost use Rattle.std.specs.declared.result.Result.TheVariants.{Err};
ghost use Rattle.rmt_model.specs.Fair.{CoveredBy};
ghost use Rattle.rmt_partset.specs.ActiveParts.{Replace, Drop, after, part_names, shown, IsCovering};
ghost use Rattle.rmt_events.specs.ApplyEvents.{IsFirstInactive};
ghost use Rattle.rmt_replica.specs.StagedBlocks.{staged_at, with_staged, without};
ghost use Rattle.rmt_replica.specs.Replicas.{IsStandingReplica, IsDrained};
ghost use Rattle.rmt_replica.specs.Answers.{IsEntryState, IsEntryStateWithout, CanSettle, CanInstall, Waits, IsOfTable, is_stopped, IsAnswer, IsChange, IsReady, Lacks, IsWhy, settled, released};
ghost use Rattle.rmt_replica.specs.Supplies.{supplied};
ghost use Rattle.rmt_entries.specs.Entries.{result_name};
ghost use Rattle.rmt_entries.specs.declared.entry.Entry.TheVariants.{DropRange};
ghost use Rattle.std.specs.declared.option.Option.TheVariants.{Some, None};

mod meet;
mod note;
mod pull;

use crate::apply_error::ApplyError;
use crate::block_number::BlockNumber;
use crate::entry_state::EntryState;
use crate::replica_error::ReplicaError;
use crate::staged::Staging;
use crate::supply::Supply;
use crate::why::Why;
use rmt_block::Block;
use rmt_entries::{Entry, result_of};
use rmt_events::Applied;
use rmt_history::LogCopy;
use rmt_names::{PartName, PartitionId, block_name, covers};
use rmt_part::Part;
use rmt_partset::{PartSet, Snapshot};
use rmt_queue::Queue;
use rmt_row::Seen;
use rmt_values::{ReplicaId, Schema};
use std::alloc::{AllocError, Global};
use std::marker::Model;
use std::sync::Arc;

/// One replica of a table. Contracts see it as a `ReplicaView`. It always stands: its copy of the log is lawful, and its
/// active parts are fair for what it has done.
#[derive(Drop)]
pub struct Replica {
    number: ReplicaId,
    up: bool,
    /// Whether it may do an entry with a part that another replica has.
    fetches: bool,
    copy: LogCopy,
    queue: Queue,
    parts: PartSet,
    staged: Staging,
    /// The parts that it has noted for their quorum, the first one first.
    noted: Vec<PartName>,
}

impl Model for Replica {
    ghost use Rattle.rmt_replica.specs.Replicas.{ReplicaView, replica_of, IsReplica};
    ghost use Rattle.std.specs.Coded.{codes};
    ghost use Rattle.rmt_values.specs.contracts.checked.Checked as filter;

    ghost Value = { ReplicaView };

    ghost coded = { Prim.hlevel (codes, filter.the_row.coded) };

    ghost view = { λ r. replica_of r.number r.up r.fetches r.copy r.queue r.parts.parts r.staged r.noted.items };

    ghost invariant = { λ r. IsReplica r.copy r.queue (replica_of r.number r.up r.fetches r.copy r.queue r.parts.parts r.staged r.noted.items) };
}

impl Replica {
    /// A replica that has nothing, and may fetch.
    pub fn new(alloc: Global, number: ReplicaId, schema: Arc<Schema, Global>, up: bool) -> Replica
        ensures { result ≡ record { number = number; up = up; fetches = true; schema = arc_value schema; log = []; cells = []; done = []; parts = []; staged = []; noted = [] } }
    {
        Replica {
            number,
            up,
            fetches: true,
            copy: LogCopy::new(alloc, schema),
            queue: Queue::new(alloc),
            parts: PartSet::new(alloc),
            staged: Staging::new(alloc),
            noted: Vec::new(alloc),
        }
    }

    /// Its number, counted from 1.
    pub fn number(&self) -> ReplicaId
        ensures { result ≡ self.now.number }
    {
        self.number
    }

    /// Whether it is up.
    pub fn is_up(&self) -> bool
        ensures { result ≡ self.now.up }
    {
        self.up
    }

    /// Whether it may do entries with parts that other replicas have.
    pub fn fetches(&self) -> bool
        ensures { result ≡ self.now.fetches }
    {
        self.fetches
    }

    /// Allows or stops fetches. It takes no memory.
    pub fn set_fetches(&mut self, allowed: bool)
        ensures { self.new ≡ record self.old { fetches = allowed } }
    {
        self.fetches = allowed;
    }

    /// The parts that it has noted for their quorum, the first one first.
    pub fn noted(&self) -> &[PartName]
        ensures { result.now ≡ self.now.noted }
    {
        &self.noted
    }

    /// Its copy of the log.
    pub fn copy(&self) -> &LogCopy
        ensures schema { result.now.schema ≡ self.now.schema }
        ensures log { result.now.log ≡ self.now.log }
        ensures cells { result.now.cells ≡ self.now.cells }
        ensures standing { IsStandingReplica self.now }
    {
        &self.copy
    }

    /// Whether the entry at this place is done.
    pub fn done(&self, i: usize) -> bool
        requires { i < length self.now.log }
        ensures done { result ≡ done_at self.now.done i }
        ensures standing { IsStandingReplica self.now }
    {
        self.queue.done(i)
    }

    /// Whether every entry of the copy is done.
    pub fn drained(&self) -> bool
        ensures drained { IsTrue result ↔ IsDrained self.now }
        ensures standing { IsStandingReplica self.now }
    {
        match self.queue.lowest() {
            Some(lowest) => self.copy.len() <= lowest,
            None => true,
        }
    }

    /// The place of the first entry of the copy that isn't done; the length where all are.
    pub fn first_pending(&self) -> usize
        ensures bound { result ≤ length self.now.log }
        ensures below { (i : ℕ) → i < result → done_at self.now.done i ≡ true }
        ensures pending { result < length self.now.log → done_at self.now.done result ≡ false }
    {
        match self.queue.lowest() {
            Some(lowest) => lowest.min(self.copy.len()),
            None => self.copy.len(),
        }
    }

    /// The active part that covers the name; none where no part does.
    pub fn covering(&self, name: &PartName) -> Option<&Arc<Part, Global>>
        ensures { MatchOption result ((a : Name) → Has (part_names self.now.parts) a → Covers a name.now → ⊥) (λ part. IsCovering self.now.parts name.now (arc_value part.now)) }
    {
        self.parts.covering(name)
    }

    /// Adds the next entry of the log to the copy, where the longer log is lawful.
    ///
    /// # Errors
    ///
    /// Down where it isn't up, or out of memory. The replica stays as it was, and the token is gone.
    pub fn extend(&mut self, next: Seen<Entry>) -> Result<(), ReplicaError>
        requires place { next.place ≡ length self.old.log }
        requires lawful { Lawful self.old.schema (next.value ∷ self.old.log) }
        ensures ok { OnOk result (self.new ≡ record self.old { log = next.value ∷ self.old.log; cells = self.old.cells ++ next.cell ∷ []; done = self.old.done ++ false ∷ [] }) }
        ensures err { OnErr result (self.new ≡ self.old) }
        ensures down { (result ≡ Err errors.Down) ↔ (self.old.up ≡ false) }
    {
        if !self.up {
            return Err(ReplicaError::Down);
        }
        self.queue.grow(self.copy.len() + 1)?;
        self.copy.extend(next)?;
        Ok(())
    }

    /// Keeps a block under its number until the Get of that number is done.
    ///
    /// # Errors
    ///
    /// Down where it isn't up, or out of memory. The replica stays as it was.
    pub fn stage(&mut self, number: u32, block: Arc<Block, Global>) -> Result<(), ReplicaError>
        ensures ok { OnOk result (self.new ≡ record self.old { staged = with_staged self.old.staged (record { partition = (arc_value block).partition; number = number }) (arc_value block) }) }
        ensures err { OnErr result (self.new ≡ self.old) }
        ensures down { (result ≡ Err errors.Down) ↔ (self.old.up ≡ false) }
    {
        if !self.up {
            return Err(ReplicaError::Down);
        }
        let partition = block.partition();
        self.staged.put(BlockNumber { partition, number }, block)?;
        Ok(())
    }

    /// Lets the block go that is staged under a number.
    pub fn unstage(&mut self, partition: PartitionId, number: u32)
        ensures { self.new ≡ record self.old { staged = without self.old.staged (record { partition = partition; number = number }) } }
    {
        self.staged.take(BlockNumber { partition, number });
    }

    /// The block that is staged under a number.
    pub fn staged(&self, partition: PartitionId, number: u32) -> Option<&Arc<Block, Global>>
        ensures { option_map arc_value (option_copied result) ≡ staged_at self.now.staged (record { partition = partition; number = number }) }
    {
        self.staged.get(BlockNumber { partition, number })
    }

    /// Takes it down. It keeps all that it has.
    pub fn kill(&mut self)
        ensures { self.new ≡ record self.old { up = false } }
    {
        self.up = false;
    }

    /// Brings it up, so that it looks at each entry of its copy again.
    pub fn restart(&mut self)
        ensures { self.new ≡ record self.old { up = true; done = replicate (length self.old.log) false } }
    {
        self.queue.clear();
        self.up = true;
    }

    /// The active parts at this moment, as a query reads them.
    pub fn snapshot(&self, alloc: Global) -> Result<Snapshot, ReplicaError>
        ensures ok { IfOk result (λ s. s ≡ shown self.now.parts) }
        ensures down { (result ≡ Err errors.Down) ↔ (self.now.up ≡ false) }
    {
        if !self.up {
            return Err(ReplicaError::Down);
        }
        Ok(self.parts.snapshot(alloc)?)
    }

    /// Whether an active part covers the name.
    fn is_covered(&self, name: &PartName) -> bool
        ensures yes { IsTrue result → CoveredBy (part_names self.now.parts) name.now }
        ensures no { CoveredBy (part_names self.now.parts) name.now → IsTrue result }
    {
        match self.parts.covering(name) {
            Some(_) => true,
            None => false,
        }
    }

    /// The first of the names that isn't active; none where all are.
    fn first_inactive(&self, names: &[PartName]) -> Option<PartName>
        ensures { MatchOption result (Each (Has (part_names self.now.parts)) names.now) (IsFirstInactive names.now (part_names self.now.parts)) }
    {
        'names: for name in names {
            if !self.parts.contains(name) {
                return Some(*name);
            }
        }
        None
    }

    /// The name, where it isn't active.
    fn inactive(&self, name: &PartName) -> Option<PartName>
        ensures { MatchOption result (Has (part_names self.now.parts) name.now) (λ a. (a ≡ name.now) × (Has (part_names self.now.parts) name.now → ⊥)) }
    {
        if self.parts.contains(name) {
            return None;
        }
        Some(*name)
    }

    /// How the entry at a place stands.
    fn state(&self, i: usize) -> EntryState
        requires { i < length self.now.log }
        ensures { IsEntryState self.now i result }
    {
        if self.queue.done(i) {
            return EntryState::Already;
        }
        let entry = self.copy.entry(i).unwrap().value();
        let Some(name) = result_of(entry) else {
            return state_without(entry);
        };
        if self.is_covered(&name) {
            return EntryState::Already;
        }
        if self.copy.dropped_after(i, &name) {
            return EntryState::Dropped;
        }
        EntryState::Waits(name)
    }

    /// The first part that an entry needs and that isn't here: the block that isn't staged, or the first source that isn't
    /// active. None where all is here.
    fn lack(&self, entry: &Entry) -> Option<PartName>
        ensures { MatchOption result (IsReady self.now entry.now) (Lacks self.now entry.now) }
    {
        match entry {
            Entry::Get {
                partition,
                number,
                ..
            } => match self.staged(*partition, *number) {
                Some(_) => None,
                None => Some(block_name(*partition, *number)),
            },
            Entry::Merge { sources, .. } => self.first_inactive(sources.as_slice()),
            Entry::Mutate { old, .. } => self.inactive(old),
            Entry::Mutation { .. } | Entry::DropRange { .. } => None,
        }
    }

    /// What the entry at a place of the copy waits for.
    pub fn why(&self, i: usize) -> Why
        requires { i < length self.now.log }
        ensures { IsWhy self.now i result }
    {
        match self.state(i) {
            EntryState::Already => Why::Covered,
            EntryState::Dropped => Why::Dropped,
            EntryState::Drops { .. } => Why::Ready,
            EntryState::Waits(_) => match self.lack(self.copy.entry(i).unwrap().value()) {
                None => Why::Ready,
                Some(part) => Why::NeedsPart(part),
            },
        }
    }

    /// Marks an entry as done, of which nothing is left to do, and lets go what is staged for it.
    fn settle(&mut self, i: usize)
        requires place { i < length self.old.log }
        requires can { CanSettle self.old i }
        ensures { self.new ≡ settled self.old i }
    {
        release(&mut self.staged, self.copy.entry(i).unwrap().value());
        self.queue.mark(i);
    }

    /// Takes the active parts of a drop away.
    fn take_away(&mut self, i: usize, partition: PartitionId, number: u32)
        requires entry { entry_at self.old.log i ≡ Some (DropRange partition number) }
        ensures parts { self.new.parts ≡ after (Drop partition number i) self.old.parts }
        ensures others { self.new ≡ record self.old { parts = self.new.parts } }
        ensures emptied { CanSettle self.new i }
    {
        self.parts.drop_range(partition, number, i);
    }

    /// Makes a part active that covers what the entry makes.
    fn put(&mut self, i: usize, name: PartName, part: Arc<Part, Global>) -> Result<(), AllocError>
        requires { CanInstall self.old i name (arc_value part) }
        ensures ok { OnOk result (self.new.parts ≡ after (Replace (arc_value part)) self.old.parts) }
        ensures others { OnOk result (self.new ≡ record self.old { parts = self.new.parts }) }
        ensures covered { OnOk result (CanSettle self.new i) }
        ensures err { OnErr result (self.new ≡ self.old) }
    {
        let _ = (i, name);
        self.parts.reserve()?;
        self.parts.replace(part);
        Ok(())
    }

    /// Whether a fetched part is supplied while fetches are stopped.
    fn is_stopped(&self, supply: &Supply) -> bool
        ensures { result ≡ is_stopped self.now supply.now }
    {
        supply.is_fetched() && !self.fetches
    }

    /// Does an entry that makes a part, with the part that is supplied.
    fn install(&mut self, i: usize, name: PartName, supply: Supply) -> Result<Applied, ApplyError>
        requires place { i < length self.old.log }
        requires up { self.old.up ≡ true }
        requires waits { Waits self.old i }
        requires makes { MakesAt self.old.log i name }
        requires of_table { IfSome (supplied supply) (IsOfTable self.old) }
        ensures answer { IsAnswer self.old i supply result }
        ensures change { IsChange self.old i supply result self.new }
    {
        if self.is_stopped(&supply) {
            return Err(ApplyError::FetchesStopped);
        }
        let Some(part) = supply.part() else {
            return Err(ApplyError::NeedsPart(name));
        };
        if part.made().place() >= self.copy.len() {
            return Err(ApplyError::NeedsPart(name));
        }
        if !covers(part.name(), &name) {
            return Err(ApplyError::NeedsPart(name));
        }
        self.put(i, name, part)?;
        self.settle(i);
        Ok(Applied::Installed)
    }

    /// Does the entry at a place of the copy, in any order. A drop needs no part; a Get, Merge or Mutate needs one that
    /// covers its result and was made within the copy. Its memory is taken first.
    ///
    /// # Errors
    ///
    /// Down where it isn't up; FetchesStopped where the entry is still to be done, a fetched part is supplied and fetches are
    /// stopped; the part that is needed; or out of memory. The replica stays as it was.
    pub fn apply(&mut self, i: usize, supply: Supply) -> Result<Applied, ApplyError>
        requires place { i < length self.old.log }
        requires of_table { IfSome (supplied supply) (IsOfTable self.old) }
        ensures answer { IsAnswer self.old i supply result }
        ensures change { IsChange self.old i supply result self.new }
    {
        if !self.up {
            return Err(ApplyError::Down);
        }
        match self.state(i) {
            EntryState::Already => {
                self.settle(i);
                Ok(Applied::Already)
            }
            EntryState::Dropped => {
                self.settle(i);
                Ok(Applied::Dropped)
            }
            EntryState::Drops { partition, number } => {
                if self.is_stopped(&supply) {
                    return Err(ApplyError::FetchesStopped);
                }
                self.take_away(i, partition, number);
                self.settle(i);
                Ok(Applied::Installed)
            }
            EntryState::Waits(name) => self.install(i, name, supply),
        }
    }
}

/// How an entry stands that makes no part and isn't done.
fn state_without(entry: &Entry) -> EntryState
    requires { result_name entry.now ≡ None }
    ensures { IsEntryStateWithout entry.now result }
{
    match entry {
        Entry::DropRange { partition, number } => EntryState::Drops {
            partition: *partition,
            number: *number,
        },
        _ => EntryState::Already,
    }
}

/// Lets the block of a Get go.
fn release(staged: &mut Staging, entry: &Entry)
    ensures { staged.new ≡ released (Some entry.now) staged.old }
{
    if let Entry::Get {
        partition,
        number,
        ..
    } = entry
    {
        let at = BlockNumber {
            partition: *partition,
            number: *number,
        };
        staged.take(at);
    }
}
