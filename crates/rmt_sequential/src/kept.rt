ghost use Rattle.std.specs.Prelude.{◌≡◌, not, IfOk};
ghost use Rattle.std.specs.List.{filter, list_any};
ghost use Rattle.rmt_names.specs.Names.{covers as name_covers};
ghost use Rattle.rmt_statement_model.specs.Reads.{covers_part};

use rmt_names::{PartName, covers};
use rmt_partset::{NamedPart, Snapshot};
use std::alloc::{AllocError, Global};

/// Whether a name covers a part, where there is one.
fn covers_any(name: &PartName, part: &Option<PartName>) -> bool
    ensures { result ≡ covers_part part.now name.now }
{
    match part {
        Some(part) => covers(name, part),
        None => false,
    }
}

/// Returns the parts without those that cover a part, where there is one. It shares their rows. At an error no memory was left.
pub fn without(
    alloc: Global,
    parts: &Snapshot,
    part: &Option<PartName>,
) -> Result<Snapshot, AllocError>
    ensures { IfOk result (λ kept. kept ≡ filter (λ p. not (covers_part part.now p.name)) parts.now) }
{
    let mut kept = Vec::with_capacity(alloc, parts.len())?;
    'parts: for one in parts.parts() {
        if !covers_any(one.name(), part) {
            kept.push(NamedPart::new(*one.name(), one.data().clone()?))?;
        }
    }
    Ok(Snapshot::of(kept))
}

/// Whether one of the parts covers a part.
pub fn has_cover(parts: &Snapshot, part: &PartName) -> bool
    ensures { result ≡ list_any (λ p. name_covers p.name part.now) parts.now }
{
    'parts: for one in parts.parts() {
        if covers(one.name(), part) {
            return true;
        }
    }
    false
}
