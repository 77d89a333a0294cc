ghost use Rattle.std.specs.Prelude.{◌≡◌, ◌++◌, List as Elements, ℕ, Option, OnOk};
ghost use Rattle.std.specs.Int.{w16, to_be_bytes};
ghost use Rattle.rmt_bytes.specs.Decoding.{Decodes, DecodesPrefix, decode_list, decode_many, decode_both, decode_number, decode_partition};
ghost use Rattle.rmt_bytes.specs.Encoding.{list_bytes, partition_bytes};

use rmt_bytes::{
    DecodeError, put_len, put_partition, put_u16, put_u32, read_partition, read_u16, read_u32,
};
use rmt_list::List;
use std::alloc::{AllocError, Global};

/// A value that has an encoding.
pub trait Encoded: Sized {
    ghost encoding: { Self → Elements ℕ };

    ghost decoding: { Elements ℕ → Option (Self × Elements ℕ) };

    /// Appends its encoding.
    fn put(&self, out: &mut Vec<u8>) -> Result<(), AllocError>
        ensures { OnOk result (out.new.items ≡ out.old.items ++ encoding self.now) };

    /// Decodes a value, and gives back the rest.
    fn read(alloc: Global, bytes: &[u8]) -> Result<(Self, &[u8]), DecodeError>
        ensures { DecodesPrefix result (decoding bytes.now) };
}

/// Appends a list, after the number of its elements.
pub fn put_list<T: Encoded>(out: &mut Vec<u8>, list: &[T]) -> Result<(), AllocError>
    ensures { OnOk result (out.new.items ≡ out.old.items ++ list_bytes T.encoding list.now) }
{
    put_len(out, list.len())?;
    'items: for item in list {
        item.put(out)?;
    }
    Ok(())
}

/// Decodes a list, from the number of its elements on, and gives back the rest.
pub fn read_list<T: Encoded + Drop>(
    alloc: Global,
    bytes: &[u8],
) -> Result<(List<T>, &[u8]), DecodeError>
    ensures { DecodesPrefix result (decode_list T.decoding bytes.now) }
{
    let (count, rest) = read_u16(bytes)?;
    let (items, rest) = read_many(alloc, count, rest)?;
    Ok((List::new(items), rest))
}

// Decodes so many values, and gives back the rest.
fn read_many<T: Encoded + Drop>(
    alloc: Global,
    count: u16,
    bytes: &[u8],
) -> Result<(Vec<T>, &[u8]), DecodeError>
    ensures { Decodes (λ x. (x.0.items, x.1.now)) result (decode_many T.decoding count bytes.now) }
{
    let mut items = Vec::new(alloc);
    let mut rest = bytes;
    'items: for _ in 0..count {
        let (item, after) = T::read(alloc, rest)?;
        items.push(item)?;
        rest = after;
    }
    Ok((items, rest))
}

impl Encoded for u16 {
    ghost encoding = { to_be_bytes w16 };

    ghost decoding = { decode_number w16 };

    fn put(&self, out: &mut Vec<u8>) -> Result<(), AllocError> {
        put_u16(out, *self)
    }

    fn read(_alloc: Global, bytes: &[u8]) -> Result<(u16, &[u8]), DecodeError> {
        read_u16(bytes)
    }
}

impl Encoded for u32 {
    ghost use Rattle.std.specs.Int.{w32};

    ghost encoding = { to_be_bytes w32 };

    ghost decoding = { decode_number w32 };

    fn put(&self, out: &mut Vec<u8>) -> Result<(), AllocError> {
        put_u32(out, *self)
    }

    fn read(_alloc: Global, bytes: &[u8]) -> Result<(u32, &[u8]), DecodeError> {
        read_u32(bytes)
    }
}

impl Encoded for Option<u64> {
    ghost encoding = { partition_bytes };

    ghost decoding = { decode_partition };

    fn put(&self, out: &mut Vec<u8>) -> Result<(), AllocError> {
        put_partition(out, *self)
    }

    fn read(_alloc: Global, bytes: &[u8]) -> Result<(Option<u64>, &[u8]), DecodeError> {
        read_partition(bytes)
    }
}

impl<A: Encoded + Drop, B: Encoded + Drop> Encoded for (A, B) {
    ghost encoding = { λ x. A.encoding x.0 ++ B.encoding x.1 };

    ghost decoding = { λ bytes. decode_both A.decoding B.decoding bytes };

    fn put(&self, out: &mut Vec<u8>) -> Result<(), AllocError> {
        self.0.put(out)?;
        self.1.put(out)?;
        Ok(())
    }

    fn read(alloc: Global, bytes: &[u8]) -> Result<((A, B), &[u8]), DecodeError> {
        let (first, rest) = A::read(alloc, bytes)?;
        let (second, rest) = B::read(alloc, rest)?;
        Ok(((first, second), rest))
    }
}
