ghost use Rattle.std.specs.Prelude.{◌≡◌, ◌++◌, OnOk, OnErr};
ghost use Rattle.rmt_bytes.specs.Encoding.{partition_bytes, Begins};
ghost use Rattle.rmt_bytes.specs.Decoding.{DecodesPrefix, decode_partition};

use crate::decode_error::DecodeError;
use crate::numbers::{put_u64, read_u64};
use std::alloc::AllocError;

/// Appends an optional partition number. At an error no memory was left, and a prefix of
/// its bytes may have been appended.
pub fn put_partition(out: &mut Vec<u8>, partition: Option<u64>) -> Result<(), AllocError>
    ensures ok { OnOk result (out.new.items ≡ out.old.items ++ partition_bytes partition) }
    ensures err { OnErr result (Begins out.old.items out.new.items) }
{
    match partition {
        None => {
            out.push(0)?;
            Ok(())
        }
        Some(number) => {
            out.push(1)?;
            put_u64(out, number)?;
            Ok(())
        }
    }
}

/// Decodes an optional partition number, and gives back the rest.
#[tactic(auto, unfolding(crate::specs::Decoding::decode_partition))]
pub fn read_partition(bytes: &[u8]) -> Result<(Option<u64>, &[u8]), DecodeError>
    ensures { DecodesPrefix result (decode_partition bytes.now) }
{
    match bytes {
        [0, rest @ ..] => Ok((None, rest)),
        [1, rest @ ..] => {
            let (number, rest) = read_u64(rest)?;
            Ok((Some(number), rest))
        }
        _ => Err(DecodeError::Malformed),
    }
}
