//! Applies commands to rows that are held by column.
ghost use Rattle.std.specs.Prelude.{◌≡◌, IfOk};
ghost use Rattle.std.specs.List.{filter_map};
ghost use Rattle.rmt_values.specs.Commands.{CommandFits, applied};
ghost use Rattle.rmt_columns.specs.RowsByColumn.{kinds_in};

use crate::deletes::rows_left;
use crate::keeps_at::keeps_any;
use crate::updates::update_rows;
use rmt_columns::Rows;
use rmt_values::{CheckedMutation, Schema};
use std::alloc::{AllocError, Global};

/// Applies a command of a schema to rows of it: those that it deletes are left out, and the others keep their order. At an
/// error no memory was left.
pub fn apply_to(
    alloc: Global,
    m: &CheckedMutation,
    rows: Rows,
    schema: &Schema,
) -> Result<Rows, AllocError>
    requires command { CommandFits schema.now m.now }
    requires kinds { rows.kinds ≡ kinds_in schema.now.columns }
    ensures rows { IfOk result (λ new. new.rows ≡ filter_map (applied m.now) rows.rows) }
    ensures kinds { IfOk result (λ new. new.kinds ≡ rows.kinds) }
{
    match m {
        CheckedMutation::Delete { filter } => {
            if keeps_any(filter, &rows) {
                rows_left(alloc, filter, &rows)
            } else {
                Ok(rows)
            }
        }
        CheckedMutation::Update { sets, filter } => {
            if keeps_any(filter, &rows) {
                update_rows(alloc, sets, filter, &rows, schema)
            } else {
                Ok(rows)
            }
        }
    }
}
