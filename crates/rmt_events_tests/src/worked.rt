//! Lists of events worked out by hand, which the definitions compute. Each is a function that does nothing.
ghost use Rattle.std.specs.Prelude.{◌≡◌, ◌∷◌, [], ℕ, false, List};
ghost use Rattle.std.specs.Str.{bytes_eq};
ghost use Rattle.rmt_values.specs.declared.column.Column.{Column};
ghost use Rattle.rmt_values.specs.declared.checked_mutation.CheckedMutation.{CheckedMutation};
ghost use Rattle.rmt_values.specs.Rows.{Shape};
ghost use Rattle.rmt_values.specs.Commands.{CommandFits};
ghost use Rattle.rmt_events.specs.Clusters.{Cluster};
ghost use Rattle.rmt_events.specs.Steps.{After};
ghost use Rattle.rmt_events.specs.Draws.{draws};
ghost use Rattle.rmt_events_tests.specs.WorkedEvents.{Shared, IsRow, of_one_column, two_replicas, overtaken, in_flight, killed_beside, killed_at};

/// A drop takes the lock of a block that isn't committed yet, which gets another number; and of two attempts of one block the
/// first to be committed is accepted.
pub fn a_drop_overtakes_an_insert()
    ensures { (schema : Shape) (column : Column) (one two five : Shared) (d1 d2 d5 : List ℕ) (command : CheckedMutation) → IsRow one 1 d1 → IsRow two 2 d2 → IsRow five 5 d5 → bytes_eq d5 d1 ≡ false → CommandFits (of_one_column schema column) command → (s : Cluster) × After (two_replicas (of_one_column schema column)) (overtaken one two five command) s }
{}

/// A merge of the parts on both sides of a lock is refused.
pub fn a_merge_over_a_lock_is_refused()
    ensures { (schema : Shape) (column : Column) (one two five : Shared) (d1 d2 d5 : List ℕ) → IsRow one 1 d1 → IsRow two 2 d2 → IsRow five 5 d5 → bytes_eq d5 d1 ≡ false → (s : Cluster) × After (two_replicas (of_one_column schema column)) (in_flight one two five) s }
{}

/// Kills of a replica between every two events of an INSERT at another one, and at the replica itself.
pub fn a_replica_is_killed_between_every_two_events()
    ensures beside { (schema : Shape) (column : Column) (one : Shared) (d1 : List ℕ) → IsRow one 1 d1 → (s : Cluster) × After (two_replicas (of_one_column schema column)) (killed_beside one) s }
    ensures at { (schema : Shape) (column : Column) (one : Shared) (d1 : List ℕ) → IsRow one 1 d1 → (s : Cluster) × After (two_replicas (of_one_column schema column)) (killed_at one) s }
{}

/// The first draws of the generator from the seed 1.
pub fn these_are_the_first_draws()
    ensures { draws 14 1 ≡ 16838 ∷ 5758 ∷ 10113 ∷ 17515 ∷ 31051 ∷ 5627 ∷ 23010 ∷ 7419 ∷ 16212 ∷ 4086 ∷ 2749 ∷ 12767 ∷ 9084 ∷ 12060 ∷ [] }
{}
