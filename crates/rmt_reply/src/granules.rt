ghost use Rattle.std.specs.Prelude.{◌≡◌};

use rmt_names::PartName;
use std::marker::Model;

/// Parts, each with how many of its granules are chosen and how many it has. Contracts see the
/// list of them.
#[derive(Debug, Drop)]
pub struct Granules {
    parts: Vec<(PartName, usize, usize)>,
}

impl Model for Granules {
    ghost use Rattle.std.specs.Prelude.{List, ℕ};
    ghost use Rattle.rmt_names.specs.Names.{Name};

    ghost Value = { List (Name × ℕ × ℕ) };

    ghost view = { λ g. g.parts.items };
}

impl Granules {
    /// Makes a list of these parts.
    pub fn new(parts: Vec<(PartName, usize, usize)>) -> Granules
        ensures { result ≡ parts.items }
    {
        Granules { parts }
    }

    /// All of them.
    pub fn as_slice(&self) -> &[(PartName, usize, usize)]
        ensures { result.now ≡ self.now }
    {
        &self.parts
    }
}
