ghost use Rattle.std.specs.Prelude.{◌≡◌, ◌<◌, ◌⊎◌, false, true, length, IsTrue};
ghost use Rattle.std.specs.declared.option.Option.TheVariants.{Some};
ghost use Rattle.rmt_model.specs.Fair.{CoveredBy};
ghost use Rattle.rmt_model.specs.Lawful.{IsPrefix, MakesAt, entry_at};
ghost use Rattle.rmt_model.specs.Live.{Dropped};
ghost use Rattle.rmt_nameset.specs.NameSets.{AreApart};
ghost use Rattle.rmt_partset.specs.ActiveParts.{part_names, shown};
ghost use Rattle.rmt_partset.specs.Snapshots.{names_in};
ghost use Rattle.rmt_clients.specs.ClientReadings.{IsChecked};
ghost use Rattle.rmt_known.specs.KnownTables.{client_of};
ghost use Rattle.rmt_readings.specs.Checks.{IsCheckedAt, IsCheckedEntry, IsOpen};

use crate::drops::leaves_all;
use rmt_entries::{Entry, result_of};
use rmt_history::LogCopy;
use rmt_known::KnownTable;
use rmt_names::PartName;
use rmt_partset::{NamedPart, Snapshot};
use rmt_replica::Replica;

/// Whether an active part covers what the entry at a place makes, or a later drop takes it away.
fn is_answered(copy: &LogCopy, replica: &Replica, i: usize, name: &PartName) -> bool
    requires { MakesAt copy.now.log i name.now }
    ensures yes { IsTrue result → CoveredBy (part_names replica.now.parts) name.now ⊎ Dropped copy.now.log name.now }
    ensures no { (result ≡ false) → CoveredBy (part_names replica.now.parts) name.now ⊎ Dropped copy.now.log name.now → ⊥ }
{
    let _length = copy.len();
    match replica.covering(name) {
        Some(_) => true,
        None => copy.dropped_after(i, name),
    }
}

/// Whether the entry at a place takes none of the active parts away, and what it makes is covered or dropped.
fn is_checked_entry(
    copy: &LogCopy,
    replica: &Replica,
    parts: &[NamedPart],
    i: usize,
    entry: &Entry,
) -> bool
    requires entry { entry_at copy.now.log i ≡ Some entry.now }
    requires names { names_in parts.now ≡ part_names replica.now.parts }
    requires apart { AreApart (names_in parts.now) }
    ensures yes { IsTrue result → IsCheckedEntry copy.now.log (part_names replica.now.parts) entry.now }
    ensures no { (result ≡ false) → IsCheckedEntry copy.now.log (part_names replica.now.parts) entry.now → ⊥ }
{
    let Some(name) = result_of(entry) else {
        return leaves_all(entry, parts);
    };
    is_answered(copy, replica, i, &name)
}

/// The same of a place that is known at the replica and that the replica hasn't done; true of each other place.
fn is_checked_at(known: &KnownTable, replica: &Replica, parts: &[NamedPart], i: usize) -> bool
    requires place { i < length known.now.log }
    requires names { names_in parts.now ≡ part_names replica.now.parts }
    requires apart { AreApart (names_in parts.now) }
    ensures yes { IsTrue result → IsOpen known.now replica.now i → IsCheckedAt known.now.log (part_names replica.now.parts) i }
    ensures no { (result ≡ false) → ((client_of known.now).known replica.now.number i ≡ true) × (IsCheckedAt known.now.log (part_names replica.now.parts) i → ⊥) }
{
    if !known.is_known(replica.number(), i) {
        return true;
    }
    if i < replica.copy().len() && replica.done(i) {
        return true;
    }
    let copy = known.copy();
    is_checked_entry(copy, replica, parts, i, copy.entry(i).unwrap().value())
}

/// Whether a replica may be read, for all that the client knows: none of its active parts is taken away by a drop that is known
/// there, and whatever a known place makes is covered by one of them, or dropped.
///
/// It looks at no place that the replica has done: for those it answers itself.
pub fn is_checked(known: &KnownTable, replica: &Replica, parts: &Snapshot) -> bool
    requires prefix { IsPrefix replica.now.log known.now.log }
    requires parts { parts.now ≡ shown replica.now.parts }
    ensures yes { IsTrue result → IsChecked known.now.log ((client_of known.now).known replica.now.number) (part_names replica.now.parts) }
    ensures no { (result ≡ false) → IsChecked known.now.log ((client_of known.now).known replica.now.number) (part_names replica.now.parts) → ⊥ }
{
    // What always holds of a replica is known here.
    let _own = replica.copy();
    let from = replica.first_pending();
    let len = known.copy().len();
    let parts = parts.parts();
    'places: for i in from..len {
        if !is_checked_at(known, replica, parts, i) {
            return false;
        }
    }
    true
}
