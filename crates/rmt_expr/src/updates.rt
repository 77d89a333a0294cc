//! Applies the sets of an UPDATE to rows that are held by column.
ghost use Rattle.std.specs.Prelude.{◌≡◌, ◌<◌, [], ◌∷◌, ◌++◌, cond, map, length, get_or, IfOk, OnOk};
ghost use Rattle.std.specs.List.{filter_map};
ghost use Rattle.rmt_values.specs.Rows.{kind_of};
ghost use Rattle.rmt_values.specs.Filters.{holds as keeps};
ghost use Rattle.rmt_values.specs.Commands.{SetsFit, applied};
ghost use Rattle.rmt_values.specs.declared.checked_mutation.CheckedMutation.TheVariants.{Update};
ghost use Rattle.rmt_columns.specs.RowsByColumn.{kinds_in};
ghost use Rattle.rmt_expr.specs.Updates.{row_with};

use crate::keeps_at::holds_at;
use crate::new_cells::new_cell;
use rmt_columns::{Rows, RowsBuilder};
use rmt_list::List;
use rmt_values::{Checked, CheckedRight, Schema};
use std::alloc::{AllocError, Global};

/// The rows after an UPDATE of a schema.
pub fn update_rows(
    alloc: Global,
    sets: &List<(u16, CheckedRight)>,
    filter: &Checked,
    rows: &Rows,
    schema: &Schema,
) -> Result<Rows, AllocError>
    requires sets { SetsFit schema.now sets.now }
    requires kinds { rows.now.kinds ≡ kinds_in schema.now.columns }
    ensures rows { IfOk result (λ new. new.rows ≡ filter_map (applied (Update sets.now filter.now)) rows.now.rows) }
    ensures kinds { IfOk result (λ new. new.kinds ≡ rows.now.kinds) }
{
    let columns = schema.columns();
    let width = columns.len() as u16;
    let mut builder = RowsBuilder::new(alloc, columns)?;
    'rows: for i in 0..rows.len() {
        let due = sets_due(sets, filter, rows, i);
        put_row(&mut builder, due, rows, i, width)?;
    }
    Ok(builder.into_rows())
}

/// The sets that row `i` gets: none where the filter doesn't keep it.
fn sets_due<'a>(
    sets: &'a List<(u16, CheckedRight)>,
    filter: &Checked,
    rows: &Rows,
    i: usize,
) -> &'a [(u16, CheckedRight)]
    ensures { result.now ≡ cond (keeps filter.now (get_or rows.now.rows i [])) sets.now [] }
{
    if holds_at(filter, rows, i) {
        sets.as_slice()
    } else {
        &[]
    }
}

/// Puts row `i`, which has so many columns, as it is after these sets.
fn put_row(
    builder: &mut RowsBuilder,
    sets: &[(u16, CheckedRight)],
    rows: &Rows,
    i: usize,
    width: u16,
) -> Result<(), AllocError>
    requires none { builder.old.begun ≡ [] }
    requires kinds { map kind_of (row_with sets.now rows.now.rows i) ≡ builder.old.kinds }
    requires width { width ≡ length builder.old.kinds }
    requires some { 0 < length builder.old.kinds }
    ensures ok { OnOk result (builder.new ≡ record builder.old { rows = builder.old.rows ++ row_with sets.now rows.now.rows i ∷ [] }) }
{
    'columns: for column in 0..width {
        let Some(value) = new_cell(sets, column, rows, i) else {
            continue;
        };
        builder.push(value)?;
    }
    builder.end_row();
    Ok(())
}
