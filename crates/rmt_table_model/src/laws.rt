//! What holds of a table in its tree. Each law is a function that does nothing, and whose clauses are the law.
ghost use Rattle.std.specs.Prelude.{◌≡◌, ◌≢◌, ◌<◌, ◌≤◌, ◌+◌, ℕ, suc, true, false, List, [], ◌∷◌, length, slice_index_or};
ghost use Rattle.std.specs.Fmt.{decimal};
ghost use Rattle.std.specs.declared.option.Option.{Option};
ghost use Rattle.std.specs.declared.option.Option.TheVariants.{Some, None};
ghost use Rattle.rmt_values.specs.Rows.{Shape};
ghost use Rattle.rmt_values.specs.Order.{tally};
ghost use Rattle.rmt_values.specs.declared.checked_mutation.CheckedMutation.{CheckedMutation};
ghost use Rattle.rmt_names.specs.Names.{Name, merged_name};
ghost use Rattle.rmt_entries.specs.Entries.{result_name};
ghost use Rattle.rmt_entries.specs.declared.entry.Entry.{Entry};
ghost use Rattle.rmt_entries.specs.declared.entry.Entry.TheVariants.{Merge, Mutate, Mutation};
ghost use Rattle.rmt_model.specs.Words.{Has};
ghost use Rattle.rmt_model.specs.Live.{live};
ghost use Rattle.rmt_model.specs.Lawful.{Lawful, Merges, entry_at, block_count, mutations_through};
ghost use Rattle.rmt_model.specs.BlockNumbers.{next_number};
ghost use Rattle.rmt_model.specs.Quorum.{Pending, noted_with};
ghost use Rattle.rmt_tree.specs.Trees.{TreeView, IsLeastFree, is_open, opened, ended, empty_tree};
ghost use Rattle.rmt_tree.specs.declared.op.Op.TheVariants as op;
ghost use Rattle.rmt_znodes.specs.declared.znode.Znode.TheVariants.{Lock, LogPointer, IsActive};
ghost use Rattle.rmt_znodes.specs.Znodes.{znode_path, entry_path};
ghost use Rattle.rmt_table_model.specs.Counts.{recorded};
ghost use Rattle.rmt_table_model.specs.Numbers.{IsLocked};
ghost use Rattle.rmt_table_model.specs.Tables.{TableView, session_of};
ghost use Rattle.rmt_table_model.specs.Changes.{MayAllocate, MayCommit, MayMutate, MayDrop, MayMerge, MayMutateOne, new_table, after_allocate, after_commit, after_abandon, after_mutation, after_drop, after_merge, after_mutate, after_pull, after_note, after_open, after_close};
ghost use Rattle.rmt_table_model.specs.Nodes.{IsTable, AreLocks, allocate_ops, commit_ops, mutation_ops, drop_ops, noted_ops, new_ops};
ghost use Rattle.rmt_table_model.specs.Steps.{Steps};

/// The multi of each call can be done, and what it leaves is a table in its tree again.
pub fn each_call_keeps_a_table()
    ensures allocate { (bytes : Entry → List ℕ) (t : TreeView) (v : TableView) (p : Option ℕ) (s : ℕ) → IsTable bytes t v → MayAllocate p s v → Steps bytes t (allocate_ops p s v) (after_allocate p s v) }
    ensures commit { (bytes : Entry → List ℕ) (t : TreeView) (v : TableView) (p : Option ℕ) (n : ℕ) (digest : List ℕ) (source need values : ℕ) → IsTable bytes t v → MayCommit p n digest need values v → Steps bytes t (commit_ops bytes p n digest source need v) (after_commit p n digest source need values v) }
    ensures abandon { (bytes : Entry → List ℕ) (t : TreeView) (v : TableView) (p : Option ℕ) (n : ℕ) → IsTable bytes t v → IsLocked v.holders p n → Steps bytes t (op.Delete (znode_path (Lock p n)) None ∷ []) (after_abandon p n v) }
    ensures mutation { (bytes : Entry → List ℕ) (t : TreeView) (v : TableView) (command : CheckedMutation) → IsTable bytes t v → MayMutate command v → Steps bytes t (mutation_ops bytes command v) (after_mutation command v) }
    // The locks of the partition that lie below the drop are among what it takes away.
    ensures drop { (bytes : Entry → List ℕ) (t : TreeView) (v : TableView) (p : Option ℕ) (locks : List ℕ) → IsTable bytes t v → MayDrop p v → AreLocks v.holders p (next_number v.next p) locks → Steps bytes t (drop_ops bytes p locks v) (after_drop p v) }
    ensures merge { (bytes : Entry → List ℕ) (t : TreeView) (v : TableView) (a b : Name) (rest : List Name) → IsTable bytes t v → MayMerge a b rest v → Steps bytes t (op.Create entry_path (bytes (Merge (merged_name a (b ∷ rest)) (a ∷ b ∷ rest) (block_count v.log (merged_name a (b ∷ rest))))) true None ∷ []) (after_merge a (b ∷ rest) v) }
    ensures mutate { (bytes : Entry → List ℕ) (t : TreeView) (v : TableView) (old : Name) (number upto : ℕ) → IsTable bytes t v → MayMutateOne old number upto v → Steps bytes t (op.Create entry_path (bytes (Mutate old (record old { mutation = number }) upto (block_count v.log old) (mutations_through v.log upto))) true None ∷ []) (after_mutate old number upto v) }
    // A replica that has pulled the whole log changes nothing.
    ensures pull { (bytes : Entry → List ℕ) (t : TreeView) (v : TableView) (r : ℕ) → IsTable bytes t v → r < length v.sessions → slice_index_or v.pulled r 0 ≢ length v.log → Steps bytes t (op.Set (znode_path (LogPointer (suc r))) (decimal (length v.log)) None ∷ []) (after_pull r v) }
    ensures note { (bytes : Entry → List ℕ) (t : TreeView) (v : TableView) (r : ℕ) (q : Pending) → IsTable bytes t v → v.quorum.pending ≡ Some q → (Has q.noted r → ⊥) → length q.noted < 4294967295 → Steps bytes t (noted_ops q (noted_with r q.noted) v.quorum.last) (after_note r v) }
    // A session is open before the node that says so is made.
    ensures open { (bytes : Entry → List ℕ) (t : TreeView) (v : TableView) (r s : ℕ) → IsTable bytes t v → r < length v.sessions → session_of v.sessions r ≡ None → IsLeastFree t s → Steps bytes (opened t s) (op.Create (znode_path (IsActive (suc r))) [] false (Some s) ∷ []) (after_open r s v) }
    ensures open_undone { (bytes : Entry → List ℕ) (t : TreeView) (v : TableView) (s : ℕ) → IsTable bytes t v → is_open t s ≡ false → ended (opened t s) s ≡ t }
    ensures close { (bytes : Entry → List ℕ) (t : TreeView) (v : TableView) (r s : ℕ) → IsTable bytes t v → r < length v.sessions → session_of v.sessions r ≡ Some s → IsTable bytes (ended t s) (after_close r s v) }
{}

/// A table of one to eight replicas can be made in an empty tree.
pub fn a_new_table()
    ensures { (bytes : Entry → List ℕ) (schema : Shape) (count : ℕ) → count ≤ 8 → Steps bytes empty_tree (new_ops count) (new_table schema count) }
{}

/// An entry records the blocks and the mutations of the part that it makes.
pub fn an_entry_records_its_counts()
    ensures recorded { (schema : Shape) (log : List Entry) (i : ℕ) (e : Entry) (a : Name) → Lawful schema log → Has (live log) a → entry_at log i ≡ Some e → result_name e ≡ Some a → recorded e ≡ block_count log a }
    ensures merged { (schema : Shape) (log : List Entry) (a b : Name) (rest : List Name) (new : Name) (count : ℕ) → Lawful schema log → Merges log a b rest new count → tally (block_count log) (a ∷ b ∷ rest) ≡ block_count log (merged_name a (b ∷ rest)) }
    ensures mutations { (schema : Shape) (log : List Entry) (i id : ℕ) (numbers : List (Option ℕ × ℕ)) (command : CheckedMutation) → Lawful schema log → entry_at log i ≡ Some (Mutation id numbers command) → mutations_through log i ≡ id + 1 }
{}
