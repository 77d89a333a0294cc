//! A replica is brought to the whole log.
ghost use Rattle.std.specs.Prelude.{◌≡◌, ◌<◌, true, false, length, IfSome, MatchResult};
ghost use Rattle.std.specs.declared.option.Option.TheVariants.{Some, None};
ghost use Rattle.rmt_entries.specs.declared.entry.Entry.{Entry as Source};
ghost use Rattle.rmt_model.specs.Lawful.{entry_at};
ghost use Rattle.rmt_events.specs.Views.{Replica as Worker};
ghost use Rattle.rmt_events.specs.ClusterChanges.{IsUp, KeepsTable};
ghost use Rattle.rmt_events.specs.Whole.{IsWhole};
ghost use Rattle.rmt_replica.specs.SeenReplica.{shown};
ghost use Rattle.rmt_state.specs.States.{IsNumber};
ghost use Rattle.rmt_cluster.specs.Syncs.{SyncsTo, DrainsTo, NotesFor, IsStopped, MayFetchAt, SourcesAreUp, IsDoneOrStopped, HasDone, PullsFor, DoesNext, IsNext, IsNextEntry, missing, pulled, source_of as source_told};

use crate::cluster::Cluster;
use crate::sync_error::SyncError;
use rmt_entries::Entry;
use rmt_events::{Event, Reply, StepRefused};
use rmt_names::PartName;
use rmt_replica::Replica;
use rmt_values::ReplicaId;
use std::alloc::{AllocError, Global};

/// The first place from one on that isn't done in a replica's copy; none where all are.
fn next_pending(worker: &Replica, from: usize) -> Option<usize>
    ensures { IsNext (shown worker.now) from result }
{
    let len = worker.copy().len();
    'places: for i in from..len {
        if !worker.done(i) {
            return Some(i);
        }
    }
    None
}

/// The source of the Get at a place of a replica's copy; 0 for other entries.
fn source_of(worker: &Replica, i: usize) -> ReplicaId
    ensures { (e : Source) → entry_at worker.now.log i ≡ Some e → result ≡ source_told e }
{
    let copy = worker.copy();
    let Some(token) = copy.entry(i) else {
        return 0;
    };
    match token.value() {
        Entry::Get { source, .. } => *source,
        _ => 0,
    }
}

/// Whether a reply says that the log was pulled.
fn was_pulled(reply: &Result<Reply, AllocError>) -> bool
    ensures { MatchResult reply.now (λ r. result ≡ pulled r) (λ e. result ≡ false) }
{
    match reply {
        Ok(Reply::Pulled(_)) => true,
        _ => false,
    }
}

/// The part that a reply says is missing; none where it says otherwise.
fn missing_part(reply: &Result<Reply, AllocError>) -> Option<PartName>
    ensures { MatchResult reply.now (λ r. result ≡ missing r) (λ e. result ≡ None) }
{
    match reply {
        Ok(Reply::Refused(StepRefused::NeedsPart(part))) => Some(*part),
        _ => None,
    }
}

impl Cluster {
    /// Whether a replica is up, and its fetches are stopped.
    fn is_stopped(&self, replica: ReplicaId) -> bool
        requires here { IsNumber replica (length self.now.replicas) }
        ensures stopped { result ≡ true → IsStopped self.now replica }
        ensures allowed { result ≡ false → MayFetchAt self.now replica }
        ensures whole { IsWhole self.now }
    {
        self.state.sound();
        let worker = self.state.worker(replica);
        worker.is_up() && !worker.fetches()
    }

    /// The first event of a sync: a replica pulls the rest of the log.
    fn pull_all(&mut self, alloc: Global, replica: ReplicaId) -> Result<(), SyncError>
        requires here { IsNumber replica (length self.old.replicas) }
        requires allowed { MayFetchAt self.old replica }
        ensures pulls { PullsFor self.old replica result self.new }
        ensures whole { IsWhole self.old }
        ensures keeps { KeepsTable self.old self.new }
    {
        let reply = self.step(alloc, Event::Pull { replica });
        if reply.is_err() {
            return Err(SyncError::Memory);
        }
        if !was_pulled(&reply) {
            return Err(SyncError::ReplicaDown);
        }
        Ok(())
    }

    /// The first place that isn't done at a replica that has the whole log, and has done all below a place; none where it has
    /// done all. It takes no step for what was done from the start on.
    fn next_entry(&self, replica: ReplicaId, from: usize) -> Option<usize>
        requires here { IsNumber replica (length self.now.replicas) }
        requires done { HasDone self.now replica from }
        ensures next { IsNextEntry self.now replica from result }
        ensures few { IfSome result (λ i. i < 65536) }
    {
        self.state.sound();
        let worker = self.state.worker(replica);
        next_pending(worker, from.max(worker.first_pending()))
    }

    /// The next event of a sync: a replica that has the whole log, and has done all before an entry, does that one.
    fn do_next(&mut self, alloc: Global, replica: ReplicaId, i: usize) -> Result<(), SyncError>
        requires here { IsNumber replica (length self.old.replicas) }
        requires ready { HasDone self.old replica i }
        requires place { i < length self.old.table.log }
        ensures does { DoesNext self.old replica i result self.new }
        ensures log { self.new.table.log ≡ self.old.table.log }
        ensures keeps { KeepsTable self.old self.new }
    {
        self.state.sound();
        let source = source_of(self.state.worker(replica), i);
        let entry = i as u32;
        let reply = self.step(alloc, Event::Apply { replica, entry });
        if reply.is_err() {
            return Err(SyncError::Memory);
        }
        match missing_part(&reply) {
            None => Ok(()),
            Some(part) => Err(SyncError::NoSource {
                part,
                replica: source,
            }),
        }
    }

    /// Brings a replica to the whole log: it pulls, does every entry that isn't done, in order, and then notes the part that
    /// waits for its quorum, if one does.
    ///
    /// # Errors
    ///
    /// What was done so far stays. At FetchesStopped allow fetches, and at NoSource restart the replica that is named; then sync
    /// again. Out of memory in the midst of a pull, some of the log was pulled.
    pub fn sync(&mut self, alloc: Global, replica: ReplicaId) -> Result<(), SyncError>
        requires here { IsNumber replica (length self.old.replicas) }
        ensures syncs { SyncsTo self.old replica result self.new }
        ensures complete { (x : Worker) → IsUp self.old replica x → x.fetches ≡ true → SourcesAreUp self.old → IsDoneOrStopped result }
        ensures keeps { KeepsTable self.old self.new }
    {
        if self.is_stopped(replica) {
            return Err(SyncError::FetchesStopped);
        }
        self.drain(alloc, replica)?;
        self.note(alloc, replica)
    }

    /// The last event of a sync: a replica that has done the whole log notes the part that waits for its quorum, if one does.
    fn note(&mut self, alloc: Global, replica: ReplicaId) -> Result<(), SyncError>
        requires here { IsNumber replica (length self.old.replicas) }
        requires done { HasDone self.old replica (length self.old.table.log) }
        ensures notes { NotesFor self.old replica result self.new }
        ensures keeps { KeepsTable self.old self.new }
    {
        match self.step(alloc, Event::Note { replica }) {
            Ok(_) => Ok(()),
            Err(_) => Err(SyncError::Memory),
        }
    }

    /// The pull of a sync, and its entries.
    fn drain(&mut self, alloc: Global, replica: ReplicaId) -> Result<(), SyncError>
        requires here { IsNumber replica (length self.old.replicas) }
        requires allowed { MayFetchAt self.old replica }
        ensures drains { DrainsTo self.old replica result self.new }
        ensures complete { (x : Worker) → IsUp self.old replica x → SourcesAreUp self.old → IsDoneOrStopped result }
        ensures keeps { KeepsTable self.old self.new }
    {
        self.pull_all(alloc, replica)?;
        let mut from = 0;
        'entries: while let Some(i) = self.next_entry(replica, from) {
            self.do_next(alloc, replica, i)?;
            from = i + 1;
        }
        Ok(())
    }
}
