//! What replies are made of: bytes, numbers and names.
ghost use Rattle.std.specs.Prelude.{◌≡◌, ◌++◌, OnOk};
ghost use Rattle.std.specs.Fmt.{decimal};
ghost use Rattle.rmt_names.specs.Texts.{text_of};
ghost use Rattle.rmt_reply.specs.Printed.{names_text, replica_text};

use rmt_names::PartName;
use rmt_values::ReplicaId;
use std::alloc::{AllocError, Global};

/// Adds bytes.
pub(crate) fn push_text(out: &mut Vec<u8>, bytes: &[u8]) -> Result<(), AllocError>
    ensures { OnOk result (out.new.items ≡ out.old.items ++ bytes.now) }
{
    out.extend_from_slice(bytes)?;
    Ok(())
}

/// Adds a number as a decimal.
pub(crate) fn push_number(alloc: Global, out: &mut Vec<u8>, number: u128) -> Result<(), AllocError>
    ensures { OnOk result (out.new.items ≡ out.old.items ++ decimal number) }
{
    let digits = number.to_string(alloc)?;
    push_text(out, digits.as_bytes())?;
    Ok(())
}

/// Adds the name of a replica.
pub(crate) fn push_replica(
    alloc: Global,
    out: &mut Vec<u8>,
    replica: ReplicaId,
) -> Result<(), AllocError>
    ensures { OnOk result (out.new.items ≡ out.old.items ++ replica_text replica) }
{
    push_text(out, b"r")?;
    push_number(alloc, out, u128::from(replica))?;
    Ok(())
}

/// Adds the name of a part.
pub(crate) fn push_part(alloc: Global, out: &mut Vec<u8>, part: &PartName) -> Result<(), AllocError>
    ensures { OnOk result (out.new.items ≡ out.old.items ++ text_of part.now) }
{
    let spelled = rmt_names::text(alloc, part)?;
    push_text(out, spelled.as_bytes())?;
    Ok(())
}

/// Adds the names of parts, a space before each.
pub(crate) fn push_parts(
    alloc: Global,
    out: &mut Vec<u8>,
    names: &[PartName],
) -> Result<(), AllocError>
    ensures { OnOk result (out.new.items ≡ out.old.items ++ names_text names.now) }
{
    'names: for name in names {
        push_text(out, b" ")?;
        push_part(alloc, out, name)?;
    }
    Ok(())
}
