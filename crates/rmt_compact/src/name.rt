//! The name of the part that an entry makes.
ghost use Rattle.std.specs.Prelude.{◌≡◌};
ghost use Rattle.std.specs.declared.option.Option.TheVariants.{Some, None};
ghost use Rattle.rmt_entries.specs.Entries.{result_name};

use rmt_entries::{Entry, result_of};
use rmt_names::PartName;

/// The name of the part that the entry makes, where it makes one.
pub(crate) fn made_name(entry: &Entry) -> PartName
    requires { result_name entry.now ≡ None → ⊥ }
    ensures { result_name entry.now ≡ Some result }
{
    match result_of(entry) {
        Some(name) => name,
        None => unreachable!(),
    }
}
