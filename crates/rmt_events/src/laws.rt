//! What holds after every list of events. Each law is a function that does nothing, and whose clause is the law.
ghost use Rattle.std.specs.Prelude.{◌≡◌, ◌<◌, ◌⊎◌, ℕ, true, List, length};
ghost use Rattle.std.specs.declared.option.Option.{Option};
ghost use Rattle.std.specs.declared.option.Option.TheVariants.{Some};
ghost use Rattle.rmt_values.specs.Rows.{Shape};
ghost use Rattle.rmt_values.specs.Order.{SameBag};
ghost use Rattle.rmt_names.specs.Names.{Name};
ghost use Rattle.rmt_entries.specs.declared.entry.Entry.TheVariants.{Get, Merge, Mutate};
ghost use Rattle.rmt_model.specs.Words.{Has, Each};
ghost use Rattle.rmt_model.specs.Live.{live, Dropped};
ghost use Rattle.rmt_model.specs.Fair.{CoveredBy};
ghost use Rattle.rmt_model.specs.Lawful.{entry_at};
ghost use Rattle.rmt_model.specs.Content.{rows};
ghost use Rattle.rmt_model.specs.CopiedParts.{names_of};
ghost use Rattle.rmt_model.specs.Quorum.{Pending};
ghost use Rattle.rmt_queue.specs.Marks.{done_at};
ghost use Rattle.rmt_events.specs.Views.{Replica, Table};
ghost use Rattle.rmt_events.specs.TableCalls.{Notes};
ghost use Rattle.rmt_events.specs.Sound.{IsSoundTable};
ghost use Rattle.rmt_events.specs.ReplicaCalls.{IsDrained, Waits};
ghost use Rattle.rmt_events.specs.Clusters.{Cluster, accepted, rows_at};
ghost use Rattle.rmt_events.specs.Whole.{IsWhole, IsMet, KeepsBlock};
ghost use Rattle.rmt_events.specs.Starts.{AreNew, new_cluster};
ghost use Rattle.rmt_events.specs.Steps.{Step, After};
ghost use Rattle.rmt_events.specs.Draws.{Runs};
ghost use Rattle.rmt_events.specs.Shown.{names_and_rows, contents, read_rows, IsHeld};
ghost use Rattle.rmt_events.specs.declared.event.Event.{Event as Made};
ghost use Rattle.rmt_events.specs.declared.reply.Reply.{Reply as Answered};

/// A new cluster is whole.
pub fn new_cluster_is_whole()
    ensures { (schema : Shape) (sessions : List ℕ) (replicas : List Replica) → AreNew sessions replicas → IsWhole (new_cluster schema sessions replicas) }
{}

/// Every event, done or refused, keeps a whole cluster whole.
pub fn every_event_keeps_a_cluster_whole()
    ensures { (s t : Cluster) (event : Made) (reply : Answered) → IsWhole s → Step s event reply t → IsWhole t }
{}

/// Whatever the events, a cluster that was new is whole after them.
pub fn a_cluster_stays_whole()
    ensures { (schema : Shape) (sessions : List ℕ) (replicas : List Replica) → AreNew sessions replicas → (events : List (Made × Answered)) (s : Cluster) → After (new_cluster schema sessions replicas) events s → IsWhole s }
{}

/// Whatever a generator draws, so many background events keep a whole cluster whole.
pub fn a_run_keeps_a_cluster_whole()
    ensures { (s t : Cluster) (seed turns x : ℕ) → IsWhole s → Runs s seed turns t x → IsWhole t }
{}

/// A replica that is drained has exactly the live names of its copy, each with the content that the accepted blocks give to it.
pub fn drained_replica_has_the_live_parts()
    ensures names { (s : Cluster) → IsWhole s → (x : Replica) → Has s.replicas x → IsDrained x → names_of x.parts ≡ live x.log }
    ensures rows { (s : Cluster) → IsWhole s → (x : Replica) → Has s.replicas x → IsDrained x → names_and_rows x.parts ≡ contents s.table.schema x.log (rows_at (accepted s)) (live x.log) }
{}

/// Replicas that are drained to one length have parts of equal names and equal rows.
pub fn replicas_drained_to_one_length_agree()
    ensures { (s : Cluster) → IsWhole s → (x y : Replica) → Has s.replicas x → Has s.replicas y → IsDrained x → IsDrained y → length x.log ≡ length y.log → names_and_rows x.parts ≡ names_and_rows y.parts }
{}

/// What is read of a drained replica, with the mutations that are pending, is the plain rows of the accepted blocks, as a bag.
pub fn drained_replica_reads_plain_rows()
    ensures { (s : Cluster) → IsWhole s → (x : Replica) → Has s.replicas x → IsDrained x → SameBag (read_rows x.log x.parts) (rows x.log (rows_at (accepted s))) }
{}

/// A Get that waits at a replica with the whole log, and whose source is up, has its block staged there, or another live
/// replica holds it.
pub fn waiting_get_finds_its_block()
    ensures { (s : Cluster) → IsWhole s → (x : Replica) → Has s.replicas x → x.log ≡ s.table.log → (i : ℕ) → Waits x i → (p : Option ℕ) (n source need : ℕ) (digest : List ℕ) → entry_at x.log i ≡ Some (Get p n digest source need) → ((y : Replica) → Has s.replicas y → y.number ≡ source → y.up ≡ true) → KeepsBlock x p n digest ⊎ IsHeld s x.number (length x.log) p n digest }
{}

/// A Merge or a Mutate that waits at a replica where all entries before it are done finds all its sources active.
pub fn waiting_merge_finds_its_sources()
    ensures merge { (s : Cluster) → IsWhole s → (x : Replica) → Has s.replicas x → (i : ℕ) → Waits x i → ((j : ℕ) → j < i → done_at x.done j ≡ true) → (new : Name) (sources : List Name) (count : ℕ) → entry_at x.log i ≡ Some (Merge new sources count) → Each (Has (names_of x.parts)) sources }
    ensures mutate { (s : Cluster) → IsWhole s → (x : Replica) → Has s.replicas x → (i : ℕ) → Waits x i → ((j : ℕ) → j < i → done_at x.done j ≡ true) → (old new : Name) (upto count mcount : ℕ) → entry_at x.log i ≡ Some (Mutate old new upto count mcount) → Has (names_of x.parts) old }
{}

/// What a replica has noted it has still, covered or dropped; and as many replicas have noted the last part whose quorum was met
/// as its Get asked for.
pub fn what_was_noted_is_kept()
    ensures kept { (s : Cluster) → IsWhole s → (x : Replica) → Has s.replicas x → (a : Name) → Has x.noted a → CoveredBy (names_of x.parts) a ⊎ Dropped x.log a }
    ensures met { (s : Cluster) → IsWhole s → (a : Name) → s.table.quorum.last ≡ Some a → IsMet s.table.log s.replicas a }
{}

/// A replica that has done the whole log has an active part that covers the one that waits for its quorum.
pub fn drained_replica_covers_the_part_that_waits()
    ensures { (s : Cluster) → IsWhole s → (x : Replica) → Has s.replicas x → x.log ≡ s.table.log → IsDrained x → (q : Pending) → s.table.quorum.pending ≡ Some q → CoveredBy (names_of x.parts) q.part }
{}

/// Once a replica has noted the part that waits for its quorum, a sound table is sound.
pub fn a_note_keeps_a_table_sound()
    ensures { (old new : Table) (r : ℕ) → IsSoundTable old → Notes old r new → IsSoundTable new }
{}
