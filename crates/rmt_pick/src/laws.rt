//! What the run that is chosen is.
ghost use Rattle.std.specs.Prelude.{◌≡◌, ◌≤◌, ℕ, List};
ghost use Rattle.std.specs.declared.option.Option.TheVariants.{Some, None};
ghost use Rattle.rmt_names.specs.Names.{Name};
ghost use Rattle.rmt_entries.specs.declared.entry.Entry.{Entry};
ghost use Rattle.rmt_model.specs.Live.{live};
ghost use Rattle.rmt_pick.specs.MergeChoices.{IsChoice, IsFirstChoice, NoneAlike};
ghost use Rattle.rmt_model.specs.Choices.{best_run};

/// Law: the best run of the live names is of neighbours of one partition and version, and no other run has a lower
/// greatest level.
pub fn best_is_choice()
    ensures { (log : List Entry) (most : ℕ) (names : List Name) →
        2 ≤ most → best_run log most (live log) ≡ Some names → IsChoice log most names }
{}

/// Law: of the runs with the least greatest level the best run is the first.
pub fn first_of_equals()
    ensures { (log : List Entry) (most : ℕ) (names : List Name) →
        best_run log most (live log) ≡ Some names → IsFirstChoice log most names }
{}

/// Law: where there is no best run, no two neighbours are of one partition and version.
pub fn none_are_alike()
    ensures { (log : List Entry) (most : ℕ) → 2 ≤ most → best_run log most (live log) ≡ None → NoneAlike log }
{}
