ghost use Rattle.std.specs.Prelude.{◌≡◌};
ghost use Rattle.rmt_expr.specs.Placed.{widened};
ghost use Rattle.rmt_expr.specs.declared.mutation_error.MutationError.TheVariants as refusal;

use crate::check_error::CheckError;
use rmt_values::Name;
use std::alloc::{AllocError, AllocFailed};

/// Why a command isn't one of the schema.
#[derive(Debug, Drop)]
pub enum MutationError {
    /// The first name that no column has.
    UnknownColumn(Name),
    /// The first column that an UPDATE sets twice.
    DoubleColumn(Name),
    /// The first column that is set to, or compared with, what isn't of its type.
    WrongType(Name),
    /// The first column that an UPDATE sets although it is one of the sorting key, or that of the partition rule.
    KeyColumn(Name),
    /// Out of memory.
    Memory,
}

impl From<AllocError> for MutationError {
    ghost from_gives = { λ _ e. e ≡ refusal.Memory };

    fn from(_: AllocError) -> Self {
        MutationError::Memory
    }
}

impl<T: Drop> From<AllocFailed<T>> for MutationError {
    ghost from_gives = { λ _ e. e ≡ refusal.Memory };

    fn from(_: AllocFailed<T>) -> Self {
        MutationError::Memory
    }
}

impl From<CheckError> for MutationError {
    ghost from_gives = { λ c e. e ≡ widened c };

    fn from(error: CheckError) -> Self {
        match error {
            CheckError::UnknownColumn(name) => MutationError::UnknownColumn(name),
            CheckError::WrongType(name) => MutationError::WrongType(name),
            CheckError::Memory => MutationError::Memory,
        }
    }
}
