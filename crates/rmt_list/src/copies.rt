ghost use Rattle.std.specs.Prelude.{◌≡◌, IfOk};

use std::alloc::AllocError;

/// A value that can be copied into memory of its own.
pub trait Copies: Sized {
    /// Returns a copy.
    fn copy(&self) -> Result<Self, AllocError>
        ensures { IfOk result (λ other. other ≡ self.now) };
}
