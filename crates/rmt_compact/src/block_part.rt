//! The part of a block.
ghost use Rattle.std.specs.Prelude.{◌≡◌, true, IfOk};
ghost use Rattle.std.specs.List.{All};
ghost use Rattle.std.specs.Arc.{arc_value};
ghost use Rattle.rmt_values.specs.Rows.{fits, in_key_order};
ghost use Rattle.rmt_granules.specs.MadePart.{data_of};
ghost use Rattle.rmt_compact.specs.NewParts.{GetsBlock, IsOfBlock};

use crate::name::made_name;
use rmt_block::Block;
use rmt_columns::{Rows, RowsBuilder};
use rmt_entries::Entry;
use rmt_granules::{PartData, from_unsorted_rows};
use rmt_list::List;
use rmt_part::{Accepted, Part};
use rmt_row::Seen;
use rmt_values::Schema;
use std::alloc::{AllocError, Global};
use std::sync::Arc;

/// Makes the part of a block, where the token is of the block's Get. At an error no memory was left, and the token is
/// gone.
pub fn from_block(
    alloc: Global,
    block: Arc<Block, Global>,
    made: Seen<Entry>,
    schema: &Arc<Schema, Global>,
) -> Result<Part, AllocError>
    requires get { GetsBlock made.value (arc_value block) }
    requires fit { All (λ row. fits (arc_value schema.now).columns row ≡ true) (arc_value block).rows }
    ensures { IfOk result (IsOfBlock (arc_value schema.now) made (arc_value block)) }
{
    let name = made_name(made.value());
    let data = sorted_data(alloc, block.rows(), schema)?;
    let body = Arc::new(alloc, data)?;
    let get = made.copy()?;
    let mut blocks = Vec::with_capacity(alloc, 1)?;
    blocks.push(Accepted::new(get, block))?;
    let mutations = Arc::new(alloc, List::empty(alloc))?;
    let schema = Arc::try_clone(schema)?;
    Ok(Part::of(schema, name, body, made, blocks, mutations))
}

/// Rows in order of key, as the data of a part.
fn sorted_data(alloc: Global, rows: &Rows, schema: &Schema) -> Result<PartData, AllocError>
    requires { All (λ row. fits schema.now.columns row ≡ true) rows.now.rows }
    ensures { IfOk result (λ part. part ≡ data_of schema.now (in_key_order schema.now rows.now.rows)) }
{
    if rows.len() == 0 {
        let none = RowsBuilder::new(alloc, schema.columns())?.into_rows();
        return from_unsorted_rows(alloc, &none, schema);
    }
    from_unsorted_rows(alloc, rows, schema)
}
