//! What is no step, and what no whole cluster has: that the definitions can tell. Each is a function that does nothing.
ghost use Rattle.std.specs.Prelude.{◌≡◌, ◌≤◌, ℕ, List, length};
ghost use Rattle.std.specs.declared.option.Option.{Option};
ghost use Rattle.std.specs.declared.option.Option.TheVariants.{Some};
ghost use Rattle.rmt_values.specs.Rows.{Shape};
ghost use Rattle.rmt_names.specs.Names.{Name, Covers, Spans};
ghost use Rattle.rmt_entries.specs.declared.entry.Entry.TheVariants.{Get};
ghost use Rattle.rmt_model.specs.Words.{Has};
ghost use Rattle.rmt_model.specs.Live.{Dropped};
ghost use Rattle.rmt_model.specs.Lawful.{entry_at, MakesAt};
ghost use Rattle.rmt_model.specs.Fair.{CoveredBy, DroppedAtMark};
ghost use Rattle.rmt_model.specs.Quorum.{Pending, quorum_blocks};
ghost use Rattle.rmt_model.specs.CopiedParts.{Copied, names_of};
ghost use Rattle.rmt_queue.specs.Marks.{done_at};
ghost use Rattle.rmt_events.specs.Views.{Replica, Table};
ghost use Rattle.rmt_events.specs.TableCalls.{IsLocked, kept_part, AssignsMerge, Commits};
ghost use Rattle.rmt_events.specs.ReplicaCalls.{IsStanding};
ghost use Rattle.rmt_events.specs.Clusters.{Cluster};
ghost use Rattle.rmt_events.specs.ClusterChanges.{IsUp};
ghost use Rattle.rmt_events.specs.Steps.{NotesPending, NotesNothing};
ghost use Rattle.rmt_events.specs.declared.reply.Reply.{Reply};
ghost use Rattle.rmt_events.specs.Whole.{IsKeptAt, IsWhole};
ghost use Rattle.rmt_events.specs.ApplyEvents.{IsFetched, InstallsSupply};

/// A part that a later drop of the copy takes away is not installed, and no active part is one that a done drop took away.
pub fn a_dropped_part_is_not_installed()
    ensures no_step { (s : Cluster) (i : ℕ) (x y : Replica) (a : Name) → MakesAt x.log i a → Dropped x.log a → InstallsSupply s i x y → ⊥ }
    ensures not_standing { (schema : Shape) (x : Replica) (a : Name) → Has (names_of x.parts) a → DroppedAtMark x.log (done_at x.done) a → IsStanding schema x → ⊥ }
{}

/// No Get of a whole cluster has its block nowhere.
pub fn a_get_has_its_block()
    ensures { (s : Cluster) (i : ℕ) (p : Option ℕ) (n source need : ℕ) (digest : List ℕ) → entry_at s.table.log i ≡ Some (Get p n digest source need) → ((x : Replica) → Has s.replicas x → IsKeptAt x p n digest → ⊥) → IsWhole s → ⊥ }
{}

/// A part that was made past the copy is not fetched, and no replica of a whole cluster has one.
pub fn a_part_past_the_copy_is_not_fetched()
    ensures no_step { (s : Cluster) (x : Replica) (i : ℕ) (part : Copied) → length x.log ≤ part.place → IsFetched s x i part → ⊥ }
    ensures not_whole { (s : Cluster) (x : Replica) (part : Copied) → Has s.replicas x → Has x.parts part → length x.log ≤ part.place → IsWhole s → ⊥ }
{}

/// A merge over a lock is not assigned.
pub fn a_lock_keeps_a_merge_out()
    ensures { (old new : Table) (a : Name) (sources : List Name) (count : ℕ) (p : Option ℕ) (n : ℕ) → IsLocked old.locks p n → Spans a p n → AssignsMerge old a sources count new → ⊥ }
{}

/// A block whose id is kept is not committed.
pub fn a_kept_block_is_not_committed()
    ensures { (old new : Table) (p : Option ℕ) (n : ℕ) (digest : List ℕ) (r need values : ℕ) (a : Name) → kept_part old.window p digest ≡ Some a → Commits old p n digest r need values new → ⊥ }
{}

/// No source of a merge covers the part that waits for its quorum.
pub fn a_part_that_waits_keeps_a_merge_out()
    ensures { (old new : Table) (a c : Name) (sources : List Name) (count : ℕ) (q : Pending) → old.quorum.pending ≡ Some q → Has sources c → Covers c q.part → AssignsMerge old a sources count new → ⊥ }
{}

/// A replica without an active part that covers the part that waits notes nothing, and one that has such a part does.
pub fn a_note_is_of_a_covering_part()
    ensures none { (s t : Cluster) (k : ℕ) (q : Pending) (reply : Reply) → s.table.quorum.pending ≡ Some q → ((x : Replica) → IsUp s k x → CoveredBy (names_of x.parts) q.part → ⊥) → NotesPending s k reply t → ⊥ }
    ensures due { (s t : Cluster) (k : ℕ) (q : Pending) (reply : Reply) (x : Replica) → IsWhole s → IsUp s k x → s.table.quorum.pending ≡ Some q → CoveredBy (names_of x.parts) q.part → NotesNothing s k reply t → ⊥ }
{}

/// A whole cluster's last part wasn't met by a note that no replica has.
pub fn a_quorum_is_met_by_replicas()
    ensures { (s : Cluster) (a : Name) → s.table.quorum.last ≡ Some a → ((x : Replica) → Has s.replicas x → Has x.noted a → ⊥) → ((need : ℕ) → Has (quorum_blocks s.table.log) (record { part = a; need = need }) → 1 ≤ need) → IsWhole s → ⊥ }
{}
