//! INSERT statements that are drawn.
ghost use Rattle.std.specs.Prelude.{◌≡◌, ◌++◌, ◌≤◌, ◌<◌, OnOk, IfOk};
ghost use Rattle.rmt_storm.specs.Storms.{drawn_insert, more_rows, row_text, state_after};

use crate::draws::Draws;
use crate::texts::{push_both, push_number, push_text};
use std::alloc::{AllocError, Global};

/// Adds a row of a partition. At an error no memory was left.
#[tactic(auto, unfolding(crate::specs::Storms::row_text))]
fn push_row(
    alloc: Global,
    out: &mut Vec<u8>,
    draws: &mut Draws,
    partition: u32,
) -> Result<(), AllocError>
    requires { partition < 4 }
    ensures text { OnOk result (out.new.items ≡ out.old.items ++ row_text partition draws.old.state) }
    ensures state { OnOk result (draws.new.state ≡ state_after 2 draws.old.state) }
{
    let key = 1000 * partition + draws.next() % 1000;
    let value = draws.next();
    push_both(alloc, out, b"(", key)?;
    push_both(alloc, out, b",", value)?;
    push_text(out, b")")?;
    Ok(())
}

/// Adds further rows. At an error no memory was left.
fn push_further(
    alloc: Global,
    out: &mut Vec<u8>,
    draws: &mut Draws,
    partition: u32,
    count: u32,
) -> Result<(), AllocError>
    requires { partition < 4 }
    ensures text { OnOk result (out.new.items ≡ out.old.items ++ (more_rows count partition draws.old.state).text) }
    ensures state { OnOk result (draws.new.state ≡ (more_rows count partition draws.old.state).state) }
{
    'rows: for _ in 0..count {
        push_text(out, b",")?;
        push_row(alloc, out, draws, partition)?;
    }
    Ok(())
}

/// An INSERT. At an error no memory was left.
pub(crate) fn insert(alloc: Global, draws: &mut Draws) -> Result<Vec<u8>, AllocError>
    ensures text { IfOk result (λ statement. statement.items ≡ (drawn_insert draws.old.state).text) }
    ensures state { OnOk result (draws.new.state ≡ (drawn_insert draws.old.state).state) }
{
    let partition = draws.next() % 4;
    let further = draws.next() % 8;
    let mut out = Vec::new(alloc);
    push_text(&mut out, b"INSERT INTO s VALUES ")?;
    push_row(alloc, &mut out, draws, partition)?;
    push_further(alloc, &mut out, draws, partition, further)?;
    Ok(out)
}
