ghost use Rattle.std.specs.Prelude.{◌≡◌, nat_lt, IfOk};
ghost use Rattle.rmt_bytes.specs.Decoding.{Decodes, DecodesPrefix, mapped, decode_bytes};
ghost use Rattle.rmt_names.specs.Names.{rank};
ghost use Rattle.rmt_entries.specs.declared.entry.Entry.{Entry as AnyEntry};
ghost use Rattle.rmt_entries.specs.declared.entry_error.EntryError.TheVariants.{NotAnEntry};
ghost use Rattle.rmt_entries.specs.EntryBytes.{entry_bytes, rises, EncodesNoEntry, EntryInRange, IsDecodedAs};
ghost use Rattle.rmt_entries.specs.EntryDecoding.{
  decode_get,
  decode_merge,
  decode_mutate,
  decode_mutation,
  get_of,
  merge_of,
  mutate_of,
  mutation_of,
  decode_entry,
  decode_all,
};

use crate::block_number::read_block_number;
use crate::command::read_command;
use crate::encoded::read_list;
use crate::entry::Entry;
use crate::entry_error::EntryError;
use crate::name::read_name;
use rmt_bytes::{DecodeError, read_byte, read_u32};
use rmt_names::{PartName, PartitionId};
use std::alloc::Global;

/// Decodes the entry that has these bytes. It recurses no deeper than a filter may nest, whatever the bytes are.
pub fn entry_of(alloc: Global, bytes: &[u8]) -> Result<Entry, EntryError>
    ensures ok { IfOk result (λ entry. (bytes.now ≡ entry_bytes entry) × EntryInRange entry) }
    ensures found { (entry : AnyEntry) → EntryInRange entry → bytes.now ≡ entry_bytes entry → IsDecodedAs entry result }
    ensures not_an_entry { result ≡ Err NotAnEntry → EncodesNoEntry bytes.now }
{
    match read_all(alloc, bytes) {
        Ok(entry) => Ok(entry),
        Err(DecodeError::Malformed) => Err(EntryError::NotAnEntry),
        Err(DecodeError::Memory) => Err(EntryError::Memory),
    }
}

// Decodes the entry that has these bytes.
fn read_all(alloc: Global, bytes: &[u8]) -> Result<Entry, DecodeError>
    ensures { Decodes (λ entry. entry) result (decode_all bytes.now) }
{
    let (entry, rest) = read_entry(alloc, bytes)?;
    if rest.is_empty() {
        Ok(entry)
    } else {
        Err(DecodeError::Malformed)
    }
}

// Decodes an entry, and gives back the rest.
#[tactic(auto, unfolding(crate::specs::EntryDecoding::decode_entry))]
fn read_entry(alloc: Global, bytes: &[u8]) -> Result<(Entry, &[u8]), DecodeError>
    ensures { DecodesPrefix result (decode_entry bytes.now) }
{
    match bytes {
        [1, rest @ ..] => read_get(rest),
        [2, rest @ ..] => read_merge(alloc, rest),
        [3, rest @ ..] => read_mutate(rest),
        [4, rest @ ..] => read_mutation(alloc, rest),
        [5, rest @ ..] => {
            let ((partition, number), rest) = read_block_number(rest)?;
            Ok((Entry::DropRange { partition, number }, rest))
        }
        _ => Err(DecodeError::Malformed),
    }
}

// Decodes the fields of a Get.
fn read_get(bytes: &[u8]) -> Result<(Entry, &[u8]), DecodeError>
    ensures { DecodesPrefix result (mapped get_of (decode_get bytes.now)) }
{
    let ((partition, number), rest) = read_block_number(bytes)?;
    let (digest, rest) = read_digest(rest)?;
    let (source, rest) = read_byte(rest)?;
    let (need, rest) = read_byte(rest)?;
    if source < 1 || source > 8 || need > 8 || need == 1 {
        return Err(DecodeError::Malformed);
    }
    let need = need as u32;
    Ok((
        Entry::Get {
            partition,
            number,
            digest,
            source,
            need,
        },
        rest,
    ))
}

// Decodes a digest.
fn read_digest(bytes: &[u8]) -> Result<([u8; 32], &[u8]), DecodeError>
    ensures { DecodesPrefix result (decode_bytes 32 bytes.now) }
{
    if bytes.len() < 32 {
        return Err(DecodeError::Malformed);
    }
    let (prefix, rest) = bytes.split_at(32);
    let mut digest = [0; 32];
    digest.copy_from_slice(prefix);
    Ok((digest, rest))
}

// Decodes the fields of a Merge.
fn read_merge(alloc: Global, bytes: &[u8]) -> Result<(Entry, &[u8]), DecodeError>
    ensures { DecodesPrefix result (mapped merge_of (decode_merge bytes.now)) }
{
    let (new, rest) = match read_name(bytes) {
        Ok(read) => read,
        Err(error) => return Err(error),
    };
    let (count, rest) = read_u32(rest)?;
    let (sources, rest) = read_list::<PartName>(alloc, rest)?;
    if sources.len() < 2 || sources.len() > 32_768 {
        return Err(DecodeError::Malformed);
    }
    Ok((
        Entry::Merge {
            new,
            sources,
            count,
        },
        rest,
    ))
}

// Decodes the fields of a Mutate.
fn read_mutate(bytes: &[u8]) -> Result<(Entry, &[u8]), DecodeError>
    ensures { DecodesPrefix result (mapped mutate_of (decode_mutate bytes.now)) }
{
    let (old, rest) = match read_name(bytes) {
        Ok(read) => read,
        Err(error) => return Err(error),
    };
    let (new, rest) = match read_name(rest) {
        Ok(read) => read,
        Err(error) => return Err(error),
    };
    let (upto, rest) = read_u32(rest)?;
    let (count, rest) = read_u32(rest)?;
    let (mcount, rest) = read_u32(rest)?;
    Ok((
        Entry::Mutate {
            old,
            new,
            upto,
            count,
            mcount,
        },
        rest,
    ))
}

// Decodes the fields of a Mutation.
fn read_mutation(alloc: Global, bytes: &[u8]) -> Result<(Entry, &[u8]), DecodeError>
    ensures { DecodesPrefix result (mapped mutation_of (decode_mutation bytes.now)) }
{
    let (id, rest) = read_u32(bytes)?;
    let (numbers, rest) = read_list::<(PartitionId, u32)>(alloc, rest)?;
    if !is_rising(numbers.as_slice()) {
        return Err(DecodeError::Malformed);
    }
    let (command, rest) = read_command(alloc, rest)?;
    Ok((
        Entry::Mutation {
            id,
            numbers,
            command,
        },
        rest,
    ))
}

// Whether the partitions rise strictly.
fn is_rising(numbers: &[(PartitionId, u32)]) -> bool
    ensures { result ≡ rises numbers.now }
{
    match numbers {
        [] => true,
        [first, rest @ ..] => match rest {
            [] => true,
            [second, ..] => is_below(first.0, second.0) && is_rising(rest),
        },
    }
}

// Whether one partition comes before another.
fn is_below(a: PartitionId, b: PartitionId) -> bool
    ensures { result ≡ nat_lt (rank a) (rank b) }
{
    match (a, b) {
        (_, None) => false,
        (None, Some(_)) => true,
        (Some(a), Some(b)) => a < b,
    }
}
