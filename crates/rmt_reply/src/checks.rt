//! Digests of parts as they are printed.
ghost use Rattle.std.specs.Prelude.{◌≡◌, ◌++◌, OnOk};
ghost use Rattle.std.specs.List.{flat_map};
ghost use Rattle.rmt_reply.specs.Printed.{check_line, checked_text};

use crate::texts::{push_part, push_text};
use rmt_list::List;
use rmt_names::PartName;
use std::alloc::{AllocError, Global};

/// Adds the line of one part.
fn push_digest(
    alloc: Global,
    out: &mut Vec<u8>,
    part: &PartName,
    digest: [u8; 32],
) -> Result<(), AllocError>
    ensures { OnOk result (out.new.items ≡ out.old.items ++ check_line (part.now, digest)) }
{
    let digits = hex::encode(alloc, digest)?;
    push_text(out, b"check ")?;
    push_part(alloc, out, part)?;
    push_text(out, b" ")?;
    push_text(out, digits.as_bytes())?;
    push_text(out, b"\n")?;
    Ok(())
}

/// Adds the lines of parts.
fn push_each_digest(
    alloc: Global,
    out: &mut Vec<u8>,
    digests: &[(PartName, [u8; 32])],
) -> Result<(), AllocError>
    ensures { OnOk result (out.new.items ≡ out.old.items ++ flat_map check_line digests.now) }
{
    'parts: for one in digests {
        push_digest(alloc, out, &one.0, one.1)?;
    }
    Ok(())
}

/// Adds the reply of a CHECK TABLE.
pub(crate) fn push_digests(
    alloc: Global,
    out: &mut Vec<u8>,
    digests: &List<(PartName, [u8; 32])>,
) -> Result<(), AllocError>
    ensures { OnOk result (out.new.items ≡ out.old.items ++ checked_text digests.now) }
{
    let all = digests.as_slice();
    if all.is_empty() {
        push_text(out, b"nothing\n")?;
        return Ok(());
    }
    push_each_digest(alloc, out, all)?;
    Ok(())
}
