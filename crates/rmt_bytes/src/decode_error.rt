ghost use Rattle.std.specs.Prelude.{◌≡◌};
ghost use Rattle.rmt_bytes.specs.declared.decode_error.DecodeError.TheVariants.{Memory};

use std::alloc::{AllocError, AllocFailed};

/// Why nothing was decoded.
#[derive(Debug, Drop)]
pub enum DecodeError {
    /// No memory was left. The bytes may be well formed or not.
    Memory,
    /// No prefix of the bytes is the encoding of a value.
    Malformed,
}

impl From<AllocError> for DecodeError {
    ghost from_gives = { λ _ e. e ≡ Memory };

    fn from(_e: AllocError) -> DecodeError {
        DecodeError::Memory
    }
}

impl<T: Drop> From<AllocFailed<T>> for DecodeError {
    ghost from_gives = { λ _ e. e ≡ Memory };

    fn from(_e: AllocFailed<T>) -> DecodeError {
        DecodeError::Memory
    }
}
