//! Counts of granules as they are printed.
ghost use Rattle.std.specs.Prelude.{◌≡◌, ◌++◌, OnOk, map};
ghost use Rattle.std.specs.List.{flat_map};
ghost use Rattle.rmt_reply.specs.Printed.{ended, granules_line, granules_text, ratio_text, sum_of};

use crate::granules::Granules;
use crate::texts::{push_number, push_part, push_text};
use rmt_names::PartName;
use std::alloc::{AllocError, Global};

/// Adds how many are chosen of how many, and ends the line.
fn push_ratio(alloc: Global, out: &mut Vec<u8>, chosen: u128, all: u128) -> Result<(), AllocError>
    ensures { OnOk result (out.new.items ≡ out.old.items ++ ended (ratio_text chosen all)) }
{
    push_number(alloc, out, chosen)?;
    push_text(out, b"/")?;
    push_number(alloc, out, all)?;
    push_text(out, b"\n")?;
    Ok(())
}

/// Adds the line of one part.
fn push_counts(
    alloc: Global,
    out: &mut Vec<u8>,
    one: &(PartName, usize, usize),
) -> Result<(), AllocError>
    ensures { OnOk result (out.new.items ≡ out.old.items ++ granules_line one.now) }
{
    push_text(out, b"granules ")?;
    push_part(alloc, out, &one.0)?;
    push_text(out, b" ")?;
    push_ratio(alloc, out, one.1 as u128, one.2 as u128)?;
    Ok(())
}

/// Adds the lines of parts.
fn push_each_count(
    alloc: Global,
    out: &mut Vec<u8>,
    parts: &[(PartName, usize, usize)],
) -> Result<(), AllocError>
    ensures { OnOk result (out.new.items ≡ out.old.items ++ flat_map granules_line parts.now) }
{
    'parts: for one in parts {
        push_counts(alloc, out, one)?;
    }
    Ok(())
}

/// How many granules are chosen in all parts.
fn chosen_in(parts: &[(PartName, usize, usize)]) -> u128
    ensures { result ≡ sum_of (map (λ g. g.1) parts.now) }
{
    let mut chosen = 0;
    'parts: for one in parts {
        chosen += one.1 as u128;
    }
    chosen
}

/// How many granules all parts have.
fn all_in(parts: &[(PartName, usize, usize)]) -> u128
    ensures { result ≡ sum_of (map (λ g. g.2) parts.now) }
{
    let mut all = 0;
    'parts: for one in parts {
        all += one.2 as u128;
    }
    all
}

/// Adds the granules of each part, and their total.
pub(crate) fn push_counted_granules(
    alloc: Global,
    out: &mut Vec<u8>,
    granules: &Granules,
) -> Result<(), AllocError>
    ensures { OnOk result (out.new.items ≡ out.old.items ++ granules_text granules.now) }
{
    let parts = granules.as_slice();
    push_each_count(alloc, out, parts)?;
    push_text(out, b"granules total ")?;
    push_ratio(alloc, out, chosen_in(parts), all_in(parts))?;
    Ok(())
}
