//! Names of parts.
ghost use Rattle.std.specs.Prelude.{◌≡◌, IfOk};
ghost use Rattle.rmt_partset.specs.Snapshots.{names_in};

use rmt_list::List;
use rmt_names::PartName;
use rmt_partset::NamedPart;
use std::alloc::{AllocError, Global};

/// The names of parts.
pub(crate) fn names_of(alloc: Global, parts: &[NamedPart]) -> Result<List<PartName>, AllocError>
    ensures { IfOk result (λ names. names ≡ names_in parts.now) }
{
    let mut names = Vec::with_capacity(alloc, parts.len())?;
    'parts: for part in parts {
        names.push(*part.name())?;
    }
    Ok(List::new(names))
}
