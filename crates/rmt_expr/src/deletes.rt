//! Applies a DELETE to rows that are held by column.
ghost use Rattle.std.specs.Prelude.{◌≡◌, length, IfOk};
ghost use Rattle.std.specs.List.{filter_map};
ghost use Rattle.rmt_values.specs.Rows.{AllBelow};
ghost use Rattle.rmt_values.specs.Commands.{applied};
ghost use Rattle.rmt_values.specs.declared.checked_mutation.CheckedMutation.TheVariants.{Delete};
ghost use Rattle.rmt_columns.specs.Places.{at_places};

use crate::keeps_at::holds_at;
use rmt_columns::Rows;
use rmt_values::Checked;
use std::alloc::{AllocError, Global};

/// The rows that a DELETE with this filter leaves.
pub fn rows_left(alloc: Global, filter: &Checked, rows: &Rows) -> Result<Rows, AllocError>
    ensures rows { IfOk result (λ new. new.rows ≡ filter_map (applied (Delete filter.now)) rows.now.rows) }
    ensures kinds { IfOk result (λ new. new.kinds ≡ rows.now.kinds) }
{
    let places = places_left(alloc, filter, rows)?;
    rows.gather(alloc, &places)
}

/// Their places, counted from 0.
fn places_left(alloc: Global, filter: &Checked, rows: &Rows) -> Result<Vec<usize>, AllocError>
    ensures rows { IfOk result (λ places. at_places rows.now.rows places.items ≡ filter_map (applied (Delete filter.now)) rows.now.rows) }
    ensures there { IfOk result (λ places. AllBelow (length rows.now.rows) places.items) }
{
    let mut places = Vec::new(alloc);
    'rows: for i in 0..rows.len() {
        if holds_at(filter, rows, i) {
            continue;
        }
        places.push(i)?;
    }
    Ok(places)
}
