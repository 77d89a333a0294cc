ghost use Rattle.std.specs.Prelude.{◌≡◌, IfOk, Some, refl};
ghost use Rattle.std.specs.Ordering.{nat_cmp};
ghost use Rattle.std.specs.Cmp.{partial_equiv_from_equiv};
ghost use Rattle.std.specs.Cmp.Lexicographic.{pointwise, slice_cmp, nat_list_cmp_total, nat_list_eq_equiv, texts_ties, texts_po};
ghost use Rattle.std.specs.Bool.{nat_eq};

use std::alloc::AllocError;
use std::cmp::Ordering;
use std::marker::Model;

/// One name of a path. Contracts see its bytes.
#[derive(Debug, Drop)]
pub struct Segment {
    bytes: Vec<u8>,
}

impl Model for Segment {
    ghost use Rattle.std.specs.Prelude.{List, ℕ};

    ghost Value = { List ℕ };

    ghost view = { λ s. s.bytes.items };
}

impl Segment {
    /// Makes a name of these bytes.
    pub(crate) fn new(bytes: Vec<u8>) -> Segment
        ensures { result ≡ bytes.items }
    {
        Segment { bytes }
    }

    /// The bytes.
    pub fn as_bytes(&self) -> &[u8]
        ensures { result.now ≡ self.now }
    {
        &self.bytes
    }

    /// Returns a copy.
    pub fn copy(&self) -> Result<Segment, AllocError>
        ensures { IfOk result (λ other. other ≡ self.now) }
    {
        let bytes = self.bytes.clone()?;
        Ok(Segment { bytes })
    }
}

impl PartialEq for Segment {
    ghost eq = { λ a b. pointwise nat_eq a b };

    ghost laws = { partial_equiv_from_equiv nat_list_eq_equiv };

    fn eq(&self, other: &Segment) -> bool {
        self.as_bytes() == other.as_bytes()
    }
}

impl Eq for Segment {
    ghost laws = { nat_list_eq_equiv };
}

impl PartialOrd for Segment {
    ghost partial_cmp = { λ a b. Some (slice_cmp nat_cmp a b) };

    ghost laws = { texts_po };

    fn partial_cmp(&self, other: &Segment) -> Option<Ordering> {
        Some(self.cmp(other))
    }
}

impl Ord for Segment {
    ghost cmp = { λ a b. slice_cmp nat_cmp a b };

    ghost total = { nat_list_cmp_total };

    ghost matches_partial_cmp = { λ a b. refl };

    ghost matches_eq = { texts_ties };

    fn cmp(&self, other: &Segment) -> Ordering {
        self.as_bytes().cmp(other.as_bytes())
    }
}
