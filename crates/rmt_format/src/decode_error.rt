ghost use Rattle.std.specs.Prelude.{◌≡◌};
ghost use Rattle.rmt_format.specs.declared.decode_error.DecodeError.TheVariants.{Memory};

use std::alloc::AllocError;

/// Why bytes were not decoded as a part.
#[derive(Clone, Copy, Debug, PartialEq, Eq)]
pub enum DecodeError {
    /// No part of the schema has these bytes.
    NotAPart,
    /// No memory was left. The bytes may be those of a part or not: decode them again when there is more.
    Memory,
}

impl From<AllocError> for DecodeError {
    ghost from_gives = { λ _ e. e ≡ Memory };

    fn from(_e: AllocError) -> DecodeError {
        DecodeError::Memory
    }
}
