//! What a cluster sees of a table and of its calls. Each law is a function that does nothing, and whose clauses are the law.
ghost use Rattle.std.specs.Prelude.{◌≡◌, ◌↔◌, ◌<◌, ◌+◌, ℕ, is_some, List, ◌∷◌, length, count_by};
ghost use Rattle.std.specs.declared.option.Option.{Option};
ghost use Rattle.std.specs.declared.option.Option.TheVariants.{Some, None};
ghost use Rattle.rmt_values.specs.declared.checked_mutation.CheckedMutation.{CheckedMutation};
ghost use Rattle.rmt_names.specs.Names.{Name, merged_name};
ghost use Rattle.rmt_model.specs.Words.{Has, Pairwise};
ghost use Rattle.rmt_model.specs.Lawful.{block_count, mutations_through};
ghost use Rattle.rmt_model.specs.BlockNumbers.{next_number};
ghost use Rattle.rmt_model.specs.EntryLimits.{client_count};
ghost use Rattle.rmt_table_model.specs.Numbers as numbers;
ghost use Rattle.rmt_table_model.specs.Kept.{in_order, with_id};
ghost use Rattle.rmt_table_model.specs.Inserts.{part_of};
ghost use Rattle.rmt_table_model.specs.Tables.{TableView, IsSound, session_of};
ghost use Rattle.rmt_table_model.specs.Changes.{MayAllocate, MayCommit, MayMutate, MayDrop, MayMerge, MayMutateOne, MayOpen, after_allocate, after_commit, after_abandon, after_mutation, after_drop, after_merge, after_mutate, after_pull, after_note, after_open, after_close};
ghost use Rattle.rmt_events.specs.Views.{Lock};
ghost use Rattle.rmt_events.specs.Sound.{IsSoundTable};
ghost use Rattle.rmt_events.specs.TableCalls as seen;
ghost use Rattle.rmt_table.specs.SeenTable.{shown, Holds, Precedes};

/// A table's calls are the calls of the table that a cluster sees. A replica's number is its place, counted from 1.
pub fn each_call_is_seen_by_events()
    ensures allocate { (v : TableView) (r s : ℕ) (p : Option ℕ) (digest : List ℕ) → IsSound v → session_of v.sessions r ≡ Some s → MayAllocate p s v → client_count v.log < 32768 → with_id p digest (in_order v.schema.window v.log) ≡ None → seen.Allocates (shown v) (r + 1) p digest (next_number v.next p) (shown (after_allocate p s v)) }
    ensures commit { (v : TableView) (p : Option ℕ) (n : ℕ) (digest : List ℕ) (source need values : ℕ) → IsSound v → MayCommit p n digest need values v → seen.Commits (shown v) p n digest source need values (shown (after_commit p n digest source need values v)) }
    ensures abandon { (v : TableView) (p : Option ℕ) (n : ℕ) → IsSound v → seen.Unlocks (shown v) p n (shown (after_abandon p n v)) }
    ensures drop { (v : TableView) (p : Option ℕ) → IsSound v → MayDrop p v → seen.DropsPartition (shown v) p (next_number v.next p) (shown (after_drop p v)) }
    ensures mutation { (v : TableView) (command : CheckedMutation) → IsSound v → MayMutate command v → seen.CreatesMutation (shown v) command (shown (after_mutation command v)) }
    // The names may be merged where none of them covers the part that waits for its quorum.
    ensures merge { (v : TableView) (a b : Name) (rest : List Name) → IsSound v → MayMerge a b rest v → seen.AreQuiet v.quorum.pending (a ∷ b ∷ rest) → seen.AssignsMerge (shown v) (merged_name a (b ∷ rest)) (a ∷ b ∷ rest) (block_count v.log (merged_name a (b ∷ rest))) (shown (after_merge a (b ∷ rest) v)) }
    ensures mutate { (v : TableView) (old : Name) (number upto : ℕ) → MayMutateOne old number upto v → seen.AssignsMutate (shown v) old (record old { mutation = number }) upto (block_count v.log old) (mutations_through v.log upto) (shown (after_mutate old number upto v)) }
    // How much of the log a replica has pulled isn't seen.
    ensures pull { (v : TableView) (r : ℕ) → shown (after_pull r v) ≡ shown v }
    ensures note { (v : TableView) (r : ℕ) → seen.Notes (shown v) r (shown (after_note r v)) }
    ensures open { (v : TableView) (r s : ℕ) → IsSound v → session_of v.sessions r ≡ None → MayOpen r s v → seen.Opens (shown v) (r + 1) (shown (after_open r s v)) }
    ensures close { (v : TableView) (r s : ℕ) → IsSound v → r < length v.sessions → session_of v.sessions r ≡ Some s → seen.Closes (shown v) (r + 1) (shown (after_close r s v)) }
{}

/// What a cluster sees of a table: exactly its locks, its kept ids and its open sessions.
pub fn a_table_is_seen_as_it_is()
    ensures sound { (v : TableView) → IsSound v → IsSoundTable (shown v) }
    ensures locks { (v : TableView) (k : Lock) → IsSound v → Has (shown v).locks k ↔ Holds v k }
    ensures locks_in_order { (v : TableView) → IsSound v → Pairwise Precedes (shown v).locks }
    ensures locked { (v : TableView) (p : Option ℕ) (n : ℕ) → IsSound v → seen.IsLocked (shown v).locks p n ↔ numbers.IsLocked v.holders p n }
    ensures ids { (v : TableView) (p : Option ℕ) (digest : List ℕ) → seen.kept_part (shown v).window p digest ≡ part_of p digest (in_order v.schema.window v.log) }
    ensures sessions { (v : TableView) (r : ℕ) → Has (shown v).sessions (r + 1) ↔ ((s : ℕ) × (session_of v.sessions r ≡ Some s)) }
    ensures sessions_counted { (v : TableView) → length (shown v).sessions ≡ count_by is_some v.sessions }
{}
