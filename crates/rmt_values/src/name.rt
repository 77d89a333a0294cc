ghost use Rattle.std.specs.Prelude.{◌≡◌, ◌↔◌, IsTrue, IfOk};
ghost use Rattle.std.specs.Cmp.Lexicographic.{slice_cmp};
ghost use Rattle.std.specs.Ordering.{nat_cmp};
ghost use Rattle.std.specs.Str.{bytes_eq};

use std::alloc::{AllocError, Global};
use std::cmp::Ordering;
use std::marker::Model;

/// The name of a table, a column or a replica. Contracts see it as its bytes.
#[derive(Debug, Drop)]
pub struct Name {
    bytes: Vec<u8>,
}

impl Model for Name {
    ghost use Rattle.std.specs.Prelude.{List, ℕ};

    ghost Value = { List ℕ };

    ghost view = { λ n. n.bytes.items };
}

impl Name {
    /// Makes a name of bytes, which are copied.
    pub fn from_slice(alloc: Global, bytes: &[u8]) -> Result<Name, AllocError>
        ensures { IfOk result (λ name. name ≡ bytes.now) }
    {
        let bytes = Vec::from_slice(alloc, bytes)?;
        Ok(Name { bytes })
    }

    /// The bytes.
    pub fn as_bytes(&self) -> &[u8]
        ensures { result.now ≡ self.now }
    {
        &self.bytes
    }

    /// Returns a copy.
    pub fn copy(&self) -> Result<Name, AllocError>
        ensures { IfOk result (λ other. other ≡ self.now) }
    {
        let bytes = self.bytes.clone()?;
        Ok(Name { bytes })
    }

    /// Whether the name has these bytes.
    pub fn is(&self, bytes: &[u8]) -> bool
        ensures { result ≡ bytes_eq self.now bytes.now }
    {
        self.bytes.as_slice() == bytes
    }

    /// Whether two names are the same.
    pub fn equals(&self, other: &Name) -> bool
        ensures test { result ≡ bytes_eq self.now other.now }
        ensures fact { IsTrue result ↔ (self.now ≡ other.now) }
    {
        self.bytes.as_slice() == other.bytes.as_slice()
    }

    /// The order by bytes, from left to right.
    pub fn compare(&self, other: &Name) -> Ordering
        ensures { result ≡ slice_cmp nat_cmp self.now other.now }
    {
        self.bytes.as_slice().cmp(other.bytes.as_slice())
    }
}
