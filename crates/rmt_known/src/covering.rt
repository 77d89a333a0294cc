//! Which of the parts of a snapshot covers a name, by binary search.
ghost use Rattle.std.specs.Prelude.{◌≡◌, ◌≤◌, ◌+◌, length};
ghost use Rattle.std.specs.declared.option.Option.TheVariants.{Some};
ghost use Rattle.rmt_partset.specs.Snapshots.{names_in, AreInOrder};
ghost use Rattle.rmt_statement_model.specs.TableStates.{covered_by, is_shown as is_shown_in};
ghost use Rattle.rmt_known.specs.KnownTables.{NoneCovers, ends_before as ends_before_of};

use rmt_entries::result_of;
use rmt_history::LogCopy;
use rmt_names::{PartName, covers};
use rmt_partset::NamedPart;

/// Whether a name ends before another one: in an earlier partition, or at a lower number of the same one.
fn ends_before(a: &PartName, b: &PartName) -> bool
    ensures value { result ≡ ends_before_of a.now b.now }
    ensures sized { a.now.min ≤ a.now.max }
    ensures other_sized { b.now.min ≤ b.now.max }
{
    let number = a.max();
    let other = b.max();
    a.partition() < b.partition() || (a.partition() == b.partition() && number < other)
}

/// The place of the first part that doesn't end before the name, which is the only one that may cover it.
fn place_of(parts: &[NamedPart], name: &PartName) -> usize
    requires { AreInOrder parts.now }
    ensures bound { result ≤ length parts.now }
    ensures below { NoneCovers name.now (names_in parts.now) 0 result }
    ensures above { NoneCovers name.now (names_in parts.now) (result + 1) (length (names_in parts.now)) }
{
    let mut low = 0;
    let mut high = parts.len();
    'halves: while low < high {
        let middle = low + (high - low) / 2;
        if ends_before(parts[middle].name(), name) {
            low = middle + 1;
        } else {
            high = middle;
        }
    }
    low
}

/// Whether one of the parts covers the name.
fn is_covered(parts: &[NamedPart], name: &PartName) -> bool
    requires { AreInOrder parts.now }
    ensures { result ≡ covered_by (names_in parts.now) (Some name.now) }
{
    let place = place_of(parts, name);
    if place >= parts.len() {
        return false;
    }
    covers(parts[place].name(), name)
}

/// Whether one of the parts covers what the entry at a place of the log makes.
pub(crate) fn is_shown(copy: &LogCopy, parts: &[NamedPart], i: usize) -> bool
    requires { AreInOrder parts.now }
    ensures { result ≡ is_shown_in copy.now.log (names_in parts.now) i }
{
    let Some(token) = copy.entry(i) else {
        return false;
    };
    let Some(name) = result_of(token.value()) else {
        return false;
    };
    is_covered(parts, &name)
}
