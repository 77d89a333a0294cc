ghost use Rattle.std.specs.Prelude.{◌≡◌, ◌↔◌, IsTrue};

/// A value that can be compared with another one.
pub trait Equals {
    /// Whether two are the same.
    fn equals(&self, other: &Self) -> bool
        ensures fact { IsTrue result ↔ (self.now ≡ other.now) };
}

impl<A: Equals, B: Equals> Equals for (A, B) {
    fn equals(&self, other: &Self) -> bool
        ensures fact { IsTrue result ↔ (self.now ≡ other.now) }
    {
        self.0.equals(&other.0) && self.1.equals(&other.1)
    }
}

impl<T: Equals> Equals for Option<T> {
    fn equals(&self, other: &Self) -> bool
        ensures fact { IsTrue result ↔ (self.now ≡ other.now) }
    {
        match (self, other) {
            (Some(a), Some(b)) => a.equals(b),
            (None, None) => true,
            _ => false,
        }
    }
}

impl Equals for u16 {
    fn equals(&self, other: &Self) -> bool
        ensures fact { IsTrue result ↔ (self.now ≡ other.now) }
    {
        *self == *other
    }
}

impl Equals for u32 {
    fn equals(&self, other: &Self) -> bool
        ensures fact { IsTrue result ↔ (self.now ≡ other.now) }
    {
        *self == *other
    }
}

impl Equals for u64 {
    fn equals(&self, other: &Self) -> bool
        ensures fact { IsTrue result ↔ (self.now ≡ other.now) }
    {
        *self == *other
    }
}
