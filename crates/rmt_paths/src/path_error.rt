ghost use Rattle.std.specs.Prelude.{◌≡◌};
ghost use Rattle.rmt_paths.specs.declared.path_error.PathError.TheVariants.{Memory};

use std::alloc::AllocError;

/// Why no path was made.
#[derive(Clone, Copy, Debug, PartialEq, Eq)]
pub enum PathError {
    /// No path has this text.
    BadPath,
    /// Out of memory.
    Memory,
}

impl From<AllocError> for PathError {
    ghost from_gives = { λ _ e. e ≡ Memory };

    fn from(_: AllocError) -> PathError {
        PathError::Memory
    }
}
