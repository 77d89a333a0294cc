//! Laws of replicas that always stand, and of what a cluster sees of them.
ghost use Rattle.std.specs.Prelude.{◌≡◌, ◌++◌, ◌↔◌, ◌⊎◌, ℕ, Bool, true, false, List, [], length, replicate, map};
ghost use Rattle.std.specs.declared.option.Option.{Option};
ghost use Rattle.std.specs.declared.option.Option.TheVariants.{Some, None};
ghost use Rattle.rmt_values.specs.Rows.{Shape};
ghost use Rattle.rmt_names.specs.Names.{Name, Covers};
ghost use Rattle.rmt_entries.specs.declared.entry.Entry.{Entry};
ghost use Rattle.rmt_entries.specs.declared.entry.Entry.TheVariants.{DropRange};
ghost use Rattle.rmt_block.specs.Blocks.{BlockView, Clear};
ghost use Rattle.rmt_model.specs.Live.{live};
ghost use Rattle.rmt_model.specs.Lawful.{MakesAt, entry_at};
ghost use Rattle.rmt_model.specs.Fair.{CoveredBy};
ghost use Rattle.rmt_model.specs.EntryStates.{IsDroppedEntry};
ghost use Rattle.rmt_model.specs.CopiedParts.{names_of};
ghost use Rattle.rmt_queue.specs.Marks.{grown};
ghost use Rattle.rmt_part.specs.Lineages.{PartValue};
ghost use Rattle.rmt_part.specs.CopiedPart.{copied};
ghost use Rattle.rmt_partset.specs.ActiveParts.{Replace, Drop, after, part_names};
ghost use Rattle.rmt_partset.specs.ActiveParts as active;
ghost use Rattle.rmt_replica.specs.Parts.{part_ids, part_blocks};
ghost use Rattle.rmt_replica.specs.StagedBlocks.{staged_at, with_staged, without};
ghost use Rattle.rmt_replica.specs.Replicas.{ReplicaView, IsStandingReplica, IsDrained};
ghost use Rattle.rmt_replica.specs.NotedParts.{ListsPart};
ghost use Rattle.rmt_replica.specs.Answers as own;
ghost use Rattle.rmt_replica.specs.SeenReplica.{shown};
ghost use Rattle.rmt_events.specs.Clusters.{without_kinds};
ghost use Rattle.rmt_events.specs.Starts.{new_replica};
ghost use Rattle.rmt_events.specs.ReplicaCalls as seen;
ghost use Rattle.rmt_events.specs.ApplyEvents as why;

/// The active parts of a drained replica have the live names of its copy.
pub fn drained_is_live()
    ensures { (r : ReplicaView) → IsStandingReplica r → IsDrained r → part_names r.parts ≡ live r.log }
{}

/// Replicas that are drained to the same log have equal active parts: the same names, of blocks of the same ids; and where no
/// two blocks of one id differ, the same blocks and the same data, so that a query reads the same at each.
pub fn drained_replicas_agree()
    ensures names { (r s : ReplicaView) → IsStandingReplica r → IsStandingReplica s → IsDrained r → IsDrained s
        → r.log ≡ s.log → part_names r.parts ≡ part_names s.parts }
    ensures ids { (r s : ReplicaView) → IsStandingReplica r → IsStandingReplica s → IsDrained r → IsDrained s
        → r.log ≡ s.log → part_ids r.parts ≡ part_ids s.parts }
    ensures blocks { (r s : ReplicaView) → IsStandingReplica r → IsStandingReplica s → IsDrained r → IsDrained s
        → r.log ≡ s.log → Clear (part_blocks r.parts ++ part_blocks s.parts) → part_blocks r.parts ≡ part_blocks s.parts }
    ensures reads { (r s : ReplicaView) → IsStandingReplica r → IsStandingReplica s → IsDrained r → IsDrained s
        → r.log ≡ s.log → r.schema ≡ s.schema → Clear (part_blocks r.parts ++ part_blocks s.parts) → active.shown r.parts ≡ active.shown s.parts }
{}

/// A replica's calls are the calls of the replica that a cluster sees.
pub fn each_call_is_seen_by_events()
    ensures new { (number : ℕ) (up : Bool) (schema : Shape) → shown (record { number = number; up = up; fetches = true; schema = schema; log = []; cells = []; done = []; parts = []; staged = []; noted = [] }) ≡ new_replica number up }
    ensures pull { (r : ReplicaView) (log : List Entry) (cells : List ℕ) → seen.Pulls (shown r) log (shown (record r { log = log; cells = cells; done = grown r.done (length log) })) }
    ensures kill { (r : ReplicaView) → seen.GoesDown (shown r) (shown (record r { up = false })) }
    ensures restart { (r : ReplicaView) → seen.ComesUp (shown r) (shown (record r { up = true; done = replicate (length r.log) false })) }
    ensures switch { (r : ReplicaView) (allowed : Bool) → shown (record r { fetches = allowed }) ≡ record (shown r) { fetches = allowed } }
    ensures stage { (r : ReplicaView) (n : ℕ) (b : BlockView) → IsStandingReplica r → seen.Stages (shown r) n (without_kinds b) (shown (record r { staged = with_staged r.staged (record { partition = b.partition; number = n }) b })) }
    ensures unstage { (r : ReplicaView) (p : Option ℕ) (n : ℕ) → IsStandingReplica r → seen.Unstages (shown r) p n (shown (record r { staged = without r.staged (record { partition = p; number = n }) })) }
    ensures settle { (r : ReplicaView) (i : ℕ) → IsStandingReplica r → own.IsAlready r i ⊎ IsDroppedEntry r.log i → seen.Settles (shown r) i (shown (own.settled r i)) }
    ensures drop { (r : ReplicaView) (i : ℕ) (p : Option ℕ) (n : ℕ) (new : ReplicaView) → IsStandingReplica r → entry_at r.log i ≡ Some (DropRange p n) → new ≡ record (own.settled r i) { parts = after (Drop p n i) r.parts } → seen.DoesDrop (shown r) i (shown new) }
    ensures part { (r : ReplicaView) (i : ℕ) (a : Name) (part : PartValue) (new : ReplicaView) → IsStandingReplica r → own.Waits r i → MakesAt r.log i a → Covers part.name a → new ≡ record (own.settled r i) { parts = after (Replace part) r.parts } → seen.DoesPart (shown r) i (copied part) (shown new) }
    ensures note { (r : ReplicaView) (a : Name) (new : ReplicaView) → CoveredBy (part_names r.parts) a → ListsPart r.noted a new.noted → new ≡ record r { noted = new.noted } → seen.NotesPart (shown r) a (shown new) }
{}

/// What a cluster sees of a replica: it stands, and its entries stand as they do.
pub fn a_replica_is_seen_as_it_is()
    ensures standing { (r : ReplicaView) → IsStandingReplica r → seen.IsStanding r.schema (shown r) }
    ensures already { (r : ReplicaView) (i : ℕ) → own.IsAlready r i ↔ seen.IsAlready (shown r) i }
    ensures dropped { (r : ReplicaView) (i : ℕ) → IsDroppedEntry r.log i ↔ IsDroppedEntry (shown r).log i }
    ensures waits { (r : ReplicaView) (i : ℕ) → own.Waits r i ↔ seen.Waits (shown r) i }
    ensures names { (r : ReplicaView) → names_of (shown r).parts ≡ part_names r.parts }
    ensures inactive { (r : ReplicaView) (names : List Name) (a : Name) → why.IsFirstInactive names (part_names r.parts) a → why.IsFirstInactive names (names_of (shown r).parts) a }
{}

/// What is staged at a replica under a number is what a cluster sees there.
pub fn staged_blocks_are_seen()
    ensures there { (r : ReplicaView) (p : Option ℕ) (n : ℕ) (b : BlockView) → IsStandingReplica r → staged_at r.staged (record { partition = p; number = n }) ≡ Some b → seen.IsStaged (shown r) p n (without_kinds b) }
    ensures nowhere { (r : ReplicaView) (p : Option ℕ) (n : ℕ) → IsStandingReplica r → staged_at r.staged (record { partition = p; number = n }) ≡ None → why.LacksBlock (shown r) p n }
{}
