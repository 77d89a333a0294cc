ghost use Rattle.std.specs.Prelude.{◌≡◌, ◌≤◌, ◌++◌, length, OnOk, OnErr};
ghost use Rattle.rmt_values.specs.declared.value.Value.TheVariants.{Text};
ghost use Rattle.rmt_bytes.specs.Encoding.{text_bytes, IsInRange, Begins};
ghost use Rattle.rmt_bytes.specs.Decoding.{DecodesPrefix, decode_text};

use crate::decode_error::DecodeError;
use crate::numbers::{put_len, read_u16};
use rmt_values::Blob;
use std::alloc::{AllocError, Global};

/// Appends a String, after its length. At an error no memory was left, and a prefix of
/// its bytes may have been appended.
pub fn put_text(out: &mut Vec<u8>, text: &[u8]) -> Result<(), AllocError>
    ensures ok { OnOk result (out.new.items ≡ out.old.items ++ text_bytes text.now) }
    ensures err { OnErr result (Begins out.old.items out.new.items) }
    ensures in_range { length text.now ≤ 65535 → IsInRange (Text text.now) }
{
    put_len(out, text.len())?;
    out.extend_from_slice(text)?;
    Ok(())
}

/// Decodes a String, from its length on, and gives back the rest.
#[tactic(auto, unfolding(crate::specs::Decoding::decode_text))]
pub fn read_text(alloc: Global, bytes: &[u8]) -> Result<(Blob, &[u8]), DecodeError>
    ensures { DecodesPrefix result (decode_text bytes.now) }
{
    let (len, rest) = read_u16(bytes)?;
    let len = len as usize;
    if rest.len() < len {
        return Err(DecodeError::Malformed);
    }
    let (text, rest) = rest.split_at(len);
    Ok((Blob::new(Vec::from_slice(alloc, text)?), rest))
}
