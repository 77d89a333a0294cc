ghost use Rattle.std.specs.Prelude.{◌≡◌, ◌++◌, ◌∷◌, [], true, OnOk, OnErr};
ghost use Rattle.rmt_values.specs.Rows.{is_value};
ghost use Rattle.rmt_bytes.specs.Encoding.{kind_byte as byte_of, value_bytes, typed_bytes, IsInRange, Begins};
ghost use Rattle.rmt_bytes.specs.Decoding.{DecodesPrefix, decode_kind, decode_value, decode_typed};

use crate::decode_error::DecodeError;
use crate::numbers::{put_i64, put_u64, read_i64, read_u64};
use crate::text::{put_text, read_text};
use rmt_values::{Kind, Value};
use std::alloc::{AllocError, Global};

/// The byte that encodes a type.
pub fn kind_byte(kind: Kind) -> u8
    ensures { result ≡ byte_of kind }
{
    match kind {
        Kind::UInt64 => 1,
        Kind::Int64 => 2,
        Kind::Text => 3,
    }
}

/// Appends a type. At an error no memory was left, and nothing was appended.
pub fn put_kind(out: &mut Vec<u8>, kind: Kind) -> Result<(), AllocError>
    ensures ok { OnOk result (out.new.items ≡ out.old.items ++ byte_of kind ∷ []) }
    ensures err { OnErr result (out.new.items ≡ out.old.items) }
{
    out.push(kind_byte(kind))?;
    Ok(())
}

/// Appends a value without its type: whoever decodes it has to know it. At an error no memory was left, and a prefix of
/// its bytes may have been appended.
pub fn put_value(out: &mut Vec<u8>, value: &Value) -> Result<(), AllocError>
    ensures ok { OnOk result (out.new.items ≡ out.old.items ++ value_bytes value.now) }
    ensures err { OnErr result (Begins out.old.items out.new.items) }
    ensures in_range { is_value value.now ≡ true → IsInRange value.now }
{
    match value {
        Value::UInt(number) => put_u64(out, *number)?,
        Value::Int(number) => put_i64(out, *number)?,
        Value::Text(text) => put_text(out, text.as_bytes())?,
    }
    Ok(())
}

/// Appends a value, after its type. At an error no memory was left, and a prefix of
/// its bytes may have been appended.
pub fn put_typed(out: &mut Vec<u8>, value: &Value) -> Result<(), AllocError>
    ensures ok { OnOk result (out.new.items ≡ out.old.items ++ typed_bytes value.now) }
    ensures err { OnErr result (Begins out.old.items out.new.items) }
{
    put_kind(out, value.kind())?;
    put_value(out, value)?;
    Ok(())
}

/// Decodes a type, and gives back the rest.
#[tactic(auto, unfolding(crate::specs::Decoding::decode_kind))]
pub fn read_kind(bytes: &[u8]) -> Result<(Kind, &[u8]), DecodeError>
    ensures { DecodesPrefix result (decode_kind bytes.now) }
{
    match bytes {
        [1, rest @ ..] => Ok((Kind::UInt64, rest)),
        [2, rest @ ..] => Ok((Kind::Int64, rest)),
        [3, rest @ ..] => Ok((Kind::Text, rest)),
        _ => Err(DecodeError::Malformed),
    }
}

/// Decodes a value of this type, and gives back the rest.
#[tactic(auto, unfolding(crate::specs::Decoding::decode_value))]
pub fn read_value(alloc: Global, kind: Kind, bytes: &[u8]) -> Result<(Value, &[u8]), DecodeError>
    ensures { DecodesPrefix result (decode_value kind bytes.now) }
{
    match kind {
        Kind::UInt64 => {
            let (number, rest) = read_u64(bytes)?;
            Ok((Value::UInt(number), rest))
        }
        Kind::Int64 => {
            let (number, rest) = read_i64(bytes)?;
            Ok((Value::Int(number), rest))
        }
        Kind::Text => {
            let (text, rest) = read_text(alloc, bytes)?;
            Ok((Value::Text(text), rest))
        }
    }
}

/// Decodes a value, from its type on, and gives back the rest.
pub fn read_typed(alloc: Global, bytes: &[u8]) -> Result<(Value, &[u8]), DecodeError>
    ensures { DecodesPrefix result (decode_typed bytes.now) }
{
    let (kind, rest) = read_kind(bytes)?;
    let (value, rest) = read_value(alloc, kind, rest)?;
    Ok((value, rest))
}
