ghost use Rattle.std.specs.Prelude.{◌≡◌, ◌++◌, OnOk, OnErr};
ghost use Rattle.std.specs.Int.{w16, w32, w64, to_be_bytes, cast_unsigned};
ghost use Rattle.rmt_bytes.specs.Decoding.{DecodesPrefix, decode_byte, decode_number, decode_signed};

use crate::decode_error::DecodeError;
use byteorder::{BigEndian, ByteOrder};
use std::alloc::AllocError;

/// Appends a number in 2 bytes. At an error no memory was left, and nothing was appended.
pub fn put_u16(out: &mut Vec<u8>, number: u16) -> Result<(), AllocError>
    ensures ok { OnOk result (out.new.items ≡ out.old.items ++ to_be_bytes w16 number) }
    ensures err { OnErr result (out.new.items ≡ out.old.items) }
{
    let mut bytes = [0; 2];
    BigEndian::write_u16(&mut bytes, number);
    out.extend_from_slice(&bytes)?;
    Ok(())
}

/// Appends a number in 4 bytes. At an error no memory was left, and nothing was appended.
pub fn put_u32(out: &mut Vec<u8>, number: u32) -> Result<(), AllocError>
    ensures ok { OnOk result (out.new.items ≡ out.old.items ++ to_be_bytes w32 number) }
    ensures err { OnErr result (out.new.items ≡ out.old.items) }
{
    let mut bytes = [0; 4];
    BigEndian::write_u32(&mut bytes, number);
    out.extend_from_slice(&bytes)?;
    Ok(())
}

/// Appends a number in 8 bytes. At an error no memory was left, and nothing was appended.
pub fn put_u64(out: &mut Vec<u8>, number: u64) -> Result<(), AllocError>
    ensures ok { OnOk result (out.new.items ≡ out.old.items ++ to_be_bytes w64 number) }
    ensures err { OnErr result (out.new.items ≡ out.old.items) }
{
    let mut bytes = [0; 8];
    BigEndian::write_u64(&mut bytes, number);
    out.extend_from_slice(&bytes)?;
    Ok(())
}

/// Appends a signed number in 8 bytes, in two's complement. At an error no memory was left, and nothing
/// was appended.
pub fn put_i64(out: &mut Vec<u8>, number: i64) -> Result<(), AllocError>
    ensures ok { OnOk result (out.new.items ≡ out.old.items ++ to_be_bytes w64 (cast_unsigned w64 number)) }
    ensures err { OnErr result (out.new.items ≡ out.old.items) }
{
    let mut bytes = [0; 8];
    BigEndian::write_i64(&mut bytes, number);
    out.extend_from_slice(&bytes)?;
    Ok(())
}

/// Appends a length in 2 bytes: of one past 65,535 its lowest 16 bits. At an error no memory was left, and nothing was
/// appended.
pub fn put_len(out: &mut Vec<u8>, len: usize) -> Result<(), AllocError>
    ensures ok { OnOk result (out.new.items ≡ out.old.items ++ to_be_bytes w16 len) }
    ensures err { OnErr result (out.new.items ≡ out.old.items) }
{
    put_u16(out, (len % 65_536) as u16)?;
    Ok(())
}

/// Decodes one byte, and gives back the rest.
pub fn read_byte(bytes: &[u8]) -> Result<(u8, &[u8]), DecodeError>
    ensures { DecodesPrefix result (decode_byte bytes.now) }
{
    match bytes {
        [] => Err(DecodeError::Malformed),
        [byte, rest @ ..] => Ok((*byte, rest)),
    }
}

/// Decodes a number of 2 bytes, and gives back the rest.
pub fn read_u16(bytes: &[u8]) -> Result<(u16, &[u8]), DecodeError>
    ensures { DecodesPrefix result (decode_number w16 bytes.now) }
{
    if bytes.len() < 2 {
        return Err(DecodeError::Malformed);
    }
    let (prefix, rest) = bytes.split_at(2);
    Ok((BigEndian::read_u16(prefix), rest))
}

/// Decodes a number of 4 bytes, and gives back the rest.
pub fn read_u32(bytes: &[u8]) -> Result<(u32, &[u8]), DecodeError>
    ensures { DecodesPrefix result (decode_number w32 bytes.now) }
{
    if bytes.len() < 4 {
        return Err(DecodeError::Malformed);
    }
    let (prefix, rest) = bytes.split_at(4);
    Ok((BigEndian::read_u32(prefix), rest))
}

/// Decodes a number of 8 bytes, and gives back the rest.
pub fn read_u64(bytes: &[u8]) -> Result<(u64, &[u8]), DecodeError>
    ensures { DecodesPrefix result (decode_number w64 bytes.now) }
{
    if bytes.len() < 8 {
        return Err(DecodeError::Malformed);
    }
    let (prefix, rest) = bytes.split_at(8);
    Ok((BigEndian::read_u64(prefix), rest))
}

/// Decodes a signed number of 8 bytes, in two's complement, and gives back the rest.
pub fn read_i64(bytes: &[u8]) -> Result<(i64, &[u8]), DecodeError>
    ensures { DecodesPrefix result (decode_signed bytes.now) }
{
    if bytes.len() < 8 {
        return Err(DecodeError::Malformed);
    }
    let (prefix, rest) = bytes.split_at(8);
    Ok((BigEndian::read_i64(prefix), rest))
}
