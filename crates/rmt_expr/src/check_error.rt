ghost use Rattle.std.specs.Prelude.{◌≡◌};
ghost use Rattle.rmt_expr.specs.declared.check_error.CheckError.TheVariants as refusal;

use rmt_values::Name;
use std::alloc::{AllocError, AllocFailed};

/// Why a filter or a query isn't one of the schema.
#[derive(Debug, Drop)]
pub enum CheckError {
    /// The first name that no column has.
    UnknownColumn(Name),
    /// The first column that is compared with, or added up as, what isn't of its type, or that isn't grouped.
    WrongType(Name),
    /// Out of memory.
    Memory,
}

impl From<AllocError> for CheckError {
    ghost from_gives = { λ _ e. e ≡ refusal.Memory };

    fn from(_: AllocError) -> Self {
        CheckError::Memory
    }
}

impl<T: Drop> From<AllocFailed<T>> for CheckError {
    ghost from_gives = { λ _ e. e ≡ refusal.Memory };

    fn from(_: AllocFailed<T>) -> Self {
        CheckError::Memory
    }
}
