//! What statements are made of: bytes and numbers.
ghost use Rattle.std.specs.Prelude.{◌≡◌, ◌++◌, OnOk};
ghost use Rattle.std.specs.Fmt.{decimal};
ghost use Rattle.rmt_storm.specs.Storms.{replica_line, statement_line};

use std::alloc::{AllocError, Global};

/// Adds bytes. At an error no memory was left.
pub(crate) fn push_text(out: &mut Vec<u8>, bytes: &[u8]) -> Result<(), AllocError>
    ensures { OnOk result (out.new.items ≡ out.old.items ++ bytes.now) }
{
    out.extend_from_slice(bytes)?;
    Ok(())
}

/// Adds a number as a decimal. At an error no memory was left.
pub(crate) fn push_number(alloc: Global, out: &mut Vec<u8>, number: u32) -> Result<(), AllocError>
    ensures { OnOk result (out.new.items ≡ out.old.items ++ decimal number) }
{
    let digits = number.to_string(alloc)?;
    push_text(out, digits.as_bytes())?;
    Ok(())
}

/// Adds bytes and a number. At an error no memory was left.
pub(crate) fn push_both(
    alloc: Global,
    out: &mut Vec<u8>,
    bytes: &[u8],
    number: u32,
) -> Result<(), AllocError>
    ensures { OnOk result (out.new.items ≡ out.old.items ++ (bytes.now ++ decimal number)) }
{
    push_text(out, bytes)?;
    push_number(alloc, out, number)?;
    Ok(())
}

/// Adds a statement, on a line of its own. At an error no memory was left.
#[tactic(auto, unfolding(crate::specs::Storms::statement_line))]
pub(crate) fn push_line(out: &mut Vec<u8>, statement: &[u8]) -> Result<(), AllocError>
    ensures { OnOk result (out.new.items ≡ out.old.items ++ statement_line statement.now) }
{
    push_text(out, statement)?;
    push_text(out, b";\n")?;
    Ok(())
}

/// Adds a statement that is sent to a replica, on a line of its own. At an error no memory was left.
#[tactic(auto, unfolding(crate::specs::Storms::replica_line))]
pub(crate) fn push_sent(
    alloc: Global,
    out: &mut Vec<u8>,
    replica: u32,
    statement: &[u8],
) -> Result<(), AllocError>
    ensures { OnOk result (out.new.items ≡ out.old.items ++ replica_line replica statement.now) }
{
    let mut line = Vec::new(alloc);
    push_both(alloc, &mut line, b"@r", replica)?;
    push_text(&mut line, b" ")?;
    push_text(&mut line, statement)?;
    push_line(out, &line)?;
    Ok(())
}
