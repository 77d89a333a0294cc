//! Blocks that the tests insert.
ghost use Rattle.std.specs.Prelude.{◌≡◌, true, IfOk};
ghost use Rattle.std.specs.List.{All};
ghost use Rattle.std.specs.Arc.{arc_value};
ghost use Rattle.rmt_values.specs.Rows.{fits};

use crate::rows::{Numbers, rows_of};
use rmt_block::{Block, split};
use rmt_columns::Rows;
use rmt_granules::all_fit;
use rmt_values::Schema;
use std::alloc::Global;
use std::sync::Arc;
use std::test::Fail;

/// The block of these rows, which have to be of one partition.
pub(crate) fn block_of(
    alloc: Global,
    schema: &Schema,
    numbers: Numbers,
) -> Result<Arc<Block, Global>, Fail>
    ensures { IfOk result (λ block. All (λ row. fits schema.now.columns row ≡ true) (arc_value block).rows) }
{
    let rows = match Rows::of_rows(alloc, &rows_of(alloc, numbers)?, schema)? {
        Some(rows) if rows.len() <= 1_000 => rows,
        _ => return Err("the rows are not of the table".into()),
    };
    let mut blocks = split(alloc, rows, schema)?;
    let Some(block) = blocks.pop() else {
        return Err("no rows".into());
    };
    if !blocks.is_empty() || !all_fit(block.rows(), schema) {
        return Err("the rows are not of one partition".into());
    }
    let shared = Arc::new(alloc, block)?;
    Ok(shared)
}
