ghost use Rattle.std.specs.Prelude.{◌≡◌};
ghost use Rattle.rmt_values.specs.declared.schema_error.SchemaError.TheVariants.{Memory};

use crate::limit::Limit;
use crate::name::Name;
use std::alloc::AllocError;

/// Why no schema was made.
#[derive(Debug, Drop)]
pub enum SchemaError {
    /// There are no columns.
    NoColumns,
    /// A name in the rule of partitions or in the key that no column has.
    UnknownColumn(Name),
    /// A name that two columns have, or that the key has twice.
    DoubleColumn(Name),
    /// The column of the rule of partitions, where it isn't of UInt64 or the divisor is 0; or a setting whose number is out of
    /// its range.
    WrongType(Name),
    /// There would be more than a limit allows, `value` being the limit's number.
    LimitReached { limit: Limit, value: u64 },
    /// Want of memory.
    Memory,
}

impl From<AllocError> for SchemaError {
    ghost from_gives = { λ _ e. e ≡ Memory };

    fn from(_: AllocError) -> Self {
        SchemaError::Memory
    }
}
