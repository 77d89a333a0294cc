//! The mutations of a log, by id.
ghost use Rattle.std.specs.Prelude.{◌≡◌, ℕ, ◌<◌, length, slice_get};
ghost use Rattle.std.specs.declared.option.Option.TheVariants.{Some};
ghost use Rattle.std.specs.List.{All, filter};
ghost use Rattle.rmt_row.specs.Token.{Token};
ghost use Rattle.rmt_model.specs.Lawful.{is_mutation, mutation_count};
ghost use Rattle.rmt_history.specs.Mutations.{HasOrder};
ghost use Rattle.rmt_changes.specs.Changes.{entries_of};
ghost use Rattle.rmt_changes.specs.Laws.{EntryFits};
ghost use Rattle.rmt_live_names.specs.Places.{IsPlaceOf};

use rmt_entries::Entry;
use rmt_history::LogCopy;
use rmt_row::Seen;

/// The mutations of a copy, the oldest first: that of an id is at the index of the same number.
pub fn all_mutations(copy: &LogCopy) -> &[Seen<Entry>]
    ensures entries { entries_of result.now ≡ filter is_mutation copy.now.log }
    ensures fit { All (λ token. EntryFits copy.now.schema token.value) result.now }
    ensures ordered { All (λ token. HasOrder token.value) result.now }
    ensures count { length result.now ≡ mutation_count copy.now.log }
    ensures places { (id : ℕ) (token : Token Entry) → slice_get result.now id ≡ Some token
        → IsPlaceOf copy.now.log id token.place }
{
    match copy.mutations(copy.len()) {
        Some(list) => list.as_slice(),
        None => &[],
    }
}

/// The place of the mutation of an id in a copy.
pub fn place_of(copy: &LogCopy, id: u32) -> usize
    requires known { id < mutation_count copy.now.log }
    ensures { IsPlaceOf copy.now.log id result }
{
    let Some(token) = all_mutations(copy).get(id as usize) else {
        unreachable!()
    };
    token.place()
}
