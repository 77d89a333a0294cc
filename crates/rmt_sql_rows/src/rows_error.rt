ghost use Rattle.std.specs.Prelude.{◌≡◌};
ghost use Rattle.rmt_sql_rows.specs.declared.rows_error.RowsError.TheVariants.{Memory};

use rmt_values::Name;
use std::alloc::{AllocError, AllocFailed};

/// Why an INSERT offers no rows.
#[derive(Debug, Drop)]
pub enum RowsError {
    /// The first column named that the table doesn't have.
    UnknownColumn(Name),
    /// The column whose first mention stands first of those named twice.
    DoubleColumn(Name),
    /// The number of the first row, counted from 1, that has a wrong number of values or one that is none of its column.
    BadRow(u64),
    /// Out of memory.
    Memory,
}

impl From<AllocError> for RowsError {
    ghost from_gives = { λ _ e. e ≡ Memory };

    fn from(_: AllocError) -> Self {
        RowsError::Memory
    }
}

impl<T: Drop> From<AllocFailed<T>> for RowsError {
    ghost from_gives = { λ _ e. e ≡ Memory };

    fn from(_: AllocFailed<T>) -> Self {
        RowsError::Memory
    }
}
