//! Sets of names: which names of a list are unknown or repeated.
ghost use Rattle.std.specs.Prelude.{◌≡◌, map, IfOk};
ghost use Rattle.rmt_values.specs.Schemas.{
  names_of as names_in,
  first_unknown as unknown_in,
  first_double as double_in,
};
ghost use Rattle.rmt_values.specs.NameSets.{HasNames};

use crate::column::Column;
use crate::name::Name;
use std::alloc::{AllocError, Global};
use std::collections::BTreeSet;

/// The first of the names that no column has. At an error no memory was left.
pub fn unknown_column(
    alloc: Global,
    columns: &[Column],
    names: &[Name],
) -> Result<Option<Name>, AllocError>
    ensures { IfOk result (λ name. name ≡ unknown_in (names_in columns.now) names.now) }
{
    let existing = column_names(alloc, columns)?;
    let known = set_of(alloc, &existing)?;
    'names: for name in names {
        if !known.contains(name.as_bytes()) {
            return Ok(Some(name.copy()?));
        }
    }
    Ok(None)
}

/// The first name of a column that a later one has too. At an error no memory was left.
pub(crate) fn double_column(alloc: Global, columns: &[Column]) -> Result<Option<Name>, AllocError>
    ensures { IfOk result (λ name. name ≡ double_in (names_in columns.now)) }
{
    let names = column_names(alloc, columns)?;
    first_double(alloc, &names)
}

/// The names of the columns, in their order.
fn column_names<'a>(alloc: Global, columns: &'a [Column]) -> Result<Vec<&'a Name>, AllocError>
    ensures { IfOk result (λ names. map (λ n. n.now) names.items ≡ names_in columns.now) }
{
    columns.iter().map(|column| &column.name).collect(alloc)
}

/// The first name that the list has again after it: of a, b, b, a it is a. At an error no memory was left.
pub fn double_name(alloc: Global, names: &[Name]) -> Result<Option<Name>, AllocError>
    ensures { IfOk result (λ name. name ≡ double_in names.now) }
{
    let names: Vec<&Name> = names.iter().collect(alloc)?;
    first_double(alloc, &names)
}

/// The first name that the list has again after it, found from the end.
fn first_double(alloc: Global, names: &[&Name]) -> Result<Option<Name>, AllocError>
    ensures { IfOk result (λ name. name ≡ double_in (map (λ n. n.now) names.now)) }
{
    let mut later = BTreeSet::new(alloc);
    let mut double = None;
    let mut rest = names;
    'names: while let [others @ .., last] = rest {
        if !later.insert(last.as_bytes())? {
            double = Some(*last);
        }
        rest = others;
    }
    match double {
        Some(name) => Ok(Some(name.copy()?)),
        None => Ok(None),
    }
}

/// The bytes of these names, as a set. At an error no memory was left.
pub fn name_set<'a>(alloc: Global, names: &'a [Name]) -> Result<BTreeSet<&'a [u8]>, AllocError>
    ensures { IfOk result (HasNames names.now) }
{
    let names: Vec<&Name> = names.iter().collect(alloc)?;
    set_of(alloc, &names)
}

/// The bytes of these names, as a set.
fn set_of<'a>(alloc: Global, names: &[&'a Name]) -> Result<BTreeSet<&'a [u8]>, AllocError>
    ensures { IfOk result (HasNames (map (λ n. n.now) names.now)) }
{
    let mut set = BTreeSet::new(alloc);
    'names: for name in names {
        set.insert(name.as_bytes())?;
    }
    Ok(set)
}
