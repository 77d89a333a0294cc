ghost use Rattle.std.specs.Prelude.{◌≡◌, IfOk};
ghost use Rattle.rmt_values.specs.Schemas.{has_name};

use rmt_values::{Name, name_set};
use std::alloc::{AllocError, Global};
use std::collections::BTreeSet;
use std::marker::Model;

/// The names of a GROUP BY, with a set in which each is found. Contracts see the list of the names.
#[derive(Drop)]
pub struct GroupNames<'a> {
    names: &'a [Name],
    set: BTreeSet<&'a [u8]>,
}

impl<'a> Model for GroupNames<'a> {
    ghost use Rattle.std.specs.Prelude.{List, ℕ};
    ghost use Rattle.rmt_values.specs.NameSets.{HasNames};

    ghost Value = { List (List ℕ) };

    ghost view = { λ g. g.names.now };

    ghost invariant = { λ g. HasNames g.names.now g.set };
}

impl<'a> GroupNames<'a> {
    /// Makes the set of these names. At an error no memory was left.
    pub fn new(alloc: Global, names: &'a [Name]) -> Result<GroupNames<'a>, AllocError>
        ensures { IfOk result (λ g. g ≡ names.now) }
    {
        let set = name_set(alloc, names)?;
        Ok(GroupNames { names, set })
    }

    /// Whether the name is one of these.
    pub fn has(&self, name: &Name) -> bool
        ensures { result ≡ has_name self.now name.now }
    {
        self.set.contains(name.as_bytes())
    }
}
