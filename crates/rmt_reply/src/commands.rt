//! Replies of statements that change what there is: mutations, drops, merges.
ghost use Rattle.std.specs.Prelude.{◌≡◌, ◌++◌, OnOk, codes};
ghost use Rattle.std.specs.List.{flat_map};
ghost use Rattle.std.specs.Fmt.{decimal};
ghost use Rattle.rmt_names.specs.Texts.{partition_text};
ghost use Rattle.rmt_reply.specs.Printed.{cut_text, dropped_text, ended, id_text, optimized_line, optimized_text};

use crate::refusal::Refusal;
use crate::refusals::push_refused;
use crate::texts::{push_number, push_part, push_text};
use rmt_list::List;
use rmt_names::{PartName, PartitionId};
use std::alloc::{AllocError, Global};

/// How many digits a mutation's id has.
const ID_DIGITS: usize = 10;

/// Adds a mutation's id.
fn push_id(alloc: Global, out: &mut Vec<u8>, id: u32) -> Result<(), AllocError>
    ensures { OnOk result (out.new.items ≡ out.old.items ++ id_text id) }
{
    let digits = id.to_string(alloc)?;
    let zeros = ID_DIGITS.saturating_sub(digits.len());
    out.resize(out.len() + zeros, b'0')?;
    push_text(out, digits.as_bytes())?;
    Ok(())
}

/// Adds a word and a mutation's id, as a line.
pub(crate) fn push_mutation(
    alloc: Global,
    out: &mut Vec<u8>,
    word: &[u8],
    id: u32,
) -> Result<(), AllocError>
    ensures { OnOk result (out.new.items ≡ out.old.items ++ ended (word.now ++ id_text id)) }
{
    push_text(out, word)?;
    push_id(alloc, out, id)?;
    push_text(out, b"\n")?;
    Ok(())
}

/// Adds how many background events were made.
pub(crate) fn push_ran(alloc: Global, out: &mut Vec<u8>, turns: u32) -> Result<(), AllocError>
    ensures { OnOk result (out.new.items ≡ out.old.items ++ ended (codes "ran " ++ decimal turns)) }
{
    push_text(out, b"ran ")?;
    push_number(alloc, out, u128::from(turns))?;
    push_text(out, b"\n")?;
    Ok(())
}

/// Adds a partition's name.
fn push_partition(
    alloc: Global,
    out: &mut Vec<u8>,
    partition: PartitionId,
) -> Result<(), AllocError>
    ensures { OnOk result (out.new.items ≡ out.old.items ++ partition_text partition) }
{
    match partition {
        None => push_text(out, b"all")?,
        Some(number) => push_number(alloc, out, u128::from(number))?,
    }
    Ok(())
}

/// Adds the reply of a drop.
pub(crate) fn push_dropped(
    alloc: Global,
    out: &mut Vec<u8>,
    partition: PartitionId,
    below: u32,
) -> Result<(), AllocError>
    ensures { OnOk result (out.new.items ≡ out.old.items ++ dropped_text partition below) }
{
    push_text(out, b"dropped ")?;
    push_partition(alloc, out, partition)?;
    push_text(out, b" below ")?;
    push_number(alloc, out, u128::from(below))?;
    push_text(out, b"\n")?;
    Ok(())
}

/// Adds a line for the one part of each partition.
fn push_optimized_parts(
    alloc: Global,
    out: &mut Vec<u8>,
    names: &[PartName],
) -> Result<(), AllocError>
    ensures { OnOk result (out.new.items ≡ out.old.items ++ flat_map optimized_line names.now) }
{
    'names: for name in names {
        push_text(out, b"optimized ")?;
        push_part(alloc, out, name)?;
        push_text(out, b"\n")?;
    }
    Ok(())
}

/// Adds the reply of an OPTIMIZE.
pub(crate) fn push_optimized(
    alloc: Global,
    out: &mut Vec<u8>,
    names: &List<PartName>,
    cause: &Option<Refusal>,
) -> Result<(), AllocError>
    ensures { OnOk result (out.new.items ≡ out.old.items ++ optimized_text names.now cause.now) }
{
    let all = names.as_slice();
    if all.is_empty() && cause.is_none() {
        push_text(out, b"nothing\n")?;
        return Ok(());
    }
    push_optimized_parts(alloc, out, all)?;
    push_cut(alloc, out, cause)?;
    Ok(())
}

/// Adds the refusal that cut a statement short, where there is one.
pub(crate) fn push_cut(
    alloc: Global,
    out: &mut Vec<u8>,
    cause: &Option<Refusal>,
) -> Result<(), AllocError>
    ensures { OnOk result (out.new.items ≡ out.old.items ++ cut_text cause.now) }
{
    if let Some(cause) = cause {
        push_refused(alloc, out, cause)?;
    }
    Ok(())
}
