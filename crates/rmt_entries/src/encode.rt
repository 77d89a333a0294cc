ghost use Rattle.std.specs.Prelude.{◌≡◌, ◌++◌, ◌≤◌, IfOk, OnOk};
ghost use Rattle.rmt_entries.specs.declared.entry.Entry.TheVariants.{Get, Merge, Mutate, Mutation, DropRange};
ghost use Rattle.rmt_entries.specs.EntryBytes.{entry_bytes, EntryInRange};

use crate::block_number::put_block_number;
use crate::command::put_command;
use crate::encoded::put_list;
use crate::entry::Entry;
use crate::name::put_name;
use rmt_bytes::put_u32;
use rmt_list::List;
use rmt_names::{PartName, PartitionId};
use rmt_values::{CheckedMutation, ReplicaId};
use std::alloc::{AllocError, Global};

/// The bytes of an entry, from which `entry_of` decodes it again. At an error no memory was left.
pub fn bytes(alloc: Global, entry: &Entry) -> Result<Vec<u8>, AllocError>
    requires in_range { EntryInRange entry.now }
    ensures ok { IfOk result (λ all. all.items ≡ entry_bytes entry.now) }
{
    let mut out = Vec::new(alloc);
    put_entry(&mut out, entry)?;
    Ok(out)
}

// Appends an entry.
fn put_entry(out: &mut Vec<u8>, entry: &Entry) -> Result<(), AllocError>
    requires { EntryInRange entry.now }
    ensures { OnOk result (out.new.items ≡ out.old.items ++ entry_bytes entry.now) }
{
    match entry {
        Entry::Get {
            partition,
            number,
            digest,
            source,
            need,
        } => put_get(out, (*partition, *number), digest, *source, *need)?,
        Entry::Merge {
            new,
            sources,
            count,
        } => put_merge(out, new, sources, *count)?,
        Entry::Mutate {
            old,
            new,
            upto,
            count,
            mcount,
        } => put_mutate(out, old, new, (*upto, *count, *mcount))?,
        Entry::Mutation {
            id,
            numbers,
            command,
        } => put_mutation(out, *id, numbers, command)?,
        Entry::DropRange { partition, number } => {
            out.push(5)?;
            put_block_number(out, *partition, *number)?;
        }
    }
    Ok(())
}

// Appends a Get.
fn put_get(
    out: &mut Vec<u8>,
    block: (PartitionId, u32),
    digest: &[u8; 32],
    source: ReplicaId,
    need: u32,
) -> Result<(), AllocError>
    requires { need ≤ 8 }
    ensures { OnOk result (out.new.items
        ≡ out.old.items ++ entry_bytes (Get block.0 block.1 digest.now source need)) }
{
    out.push(1)?;
    put_block_number(out, block.0, block.1)?;
    out.extend_from_slice(digest)?;
    out.push(source)?;
    out.push(need as u8)?;
    Ok(())
}

// Appends a Merge.
fn put_merge(
    out: &mut Vec<u8>,
    new: &PartName,
    sources: &List<PartName>,
    count: u32,
) -> Result<(), AllocError>
    ensures { OnOk result (out.new.items
        ≡ out.old.items ++ entry_bytes (Merge new.now sources.now count)) }
{
    out.push(2)?;
    put_name(out, new)?;
    put_u32(out, count)?;
    put_list(out, sources.as_slice())?;
    Ok(())
}

// Appends a Mutate, with its `upto`, `count` and `mcount`.
fn put_mutate(
    out: &mut Vec<u8>,
    old: &PartName,
    new: &PartName,
    numbers: (u32, u32, u32),
) -> Result<(), AllocError>
    ensures { OnOk result (out.new.items
        ≡ out.old.items ++ entry_bytes (Mutate old.now new.now numbers.0 numbers.1 numbers.2)) }
{
    out.push(3)?;
    put_name(out, old)?;
    put_name(out, new)?;
    put_u32(out, numbers.0)?;
    put_u32(out, numbers.1)?;
    put_u32(out, numbers.2)?;
    Ok(())
}

// Appends a Mutation.
fn put_mutation(
    out: &mut Vec<u8>,
    id: u32,
    numbers: &List<(PartitionId, u32)>,
    command: &CheckedMutation,
) -> Result<(), AllocError>
    ensures { OnOk result (out.new.items
        ≡ out.old.items ++ entry_bytes (Mutation id numbers.now command.now)) }
{
    out.push(4)?;
    put_u32(out, id)?;
    put_list(out, numbers.as_slice())?;
    put_command(out, command)?;
    Ok(())
}
