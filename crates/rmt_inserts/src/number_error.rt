ghost use Rattle.std.specs.Prelude.{◌≡◌};
ghost use Rattle.rmt_inserts.specs.declared.number_error.NumberError.TheVariants.{Memory};

use rmt_values::Limit;
use std::alloc::AllocError;

/// Why no block number was taken.
#[derive(Clone, Copy, Debug, PartialEq, Eq)]
pub enum NumberError {
    /// The limit on partitions or on the numbers of one is reached, with the count as it is.
    LimitReached { limit: Limit, value: u64 },
    /// Out of memory.
    Memory,
}

impl From<AllocError> for NumberError {
    ghost from_gives = { λ _ e. e ≡ Memory };

    fn from(_: AllocError) -> NumberError {
        NumberError::Memory
    }
}
