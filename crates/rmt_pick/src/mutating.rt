//! What to mutate next.
ghost use Rattle.std.specs.Prelude.{◌≡◌};
ghost use Rattle.rmt_model.specs.Live.{live};
ghost use Rattle.rmt_model.specs.Choices.{next_among};

use rmt_history::LogCopy;
use rmt_names::PartName;

/// The first live name for which a mutation at a place below `upto` is pending, and the last such place.
pub fn next_mutation(copy: &LogCopy, upto: usize) -> Option<(PartName, usize)>
    ensures { result ≡ next_among copy.now.log upto (live copy.now.log) }
{
    let names = copy.live();
    'names: for name in names {
        if let Some(place) = copy.last_pending(name, upto) {
            return Some((*name, place));
        }
    }
    None
}
