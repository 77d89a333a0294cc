ghost use Rattle.std.specs.Prelude.{◌≡◌, ◌≤◌, ◌<◌, ◌^◌, length, true, IfOk};
ghost use Rattle.std.specs.List.{All};
ghost use Rattle.rmt_values.specs.Rows.{fits};
ghost use Rattle.rmt_columns.specs.RowsByColumn.{kinds_in as types_of};
ghost use Rattle.rmt_block.specs.Blocks.{AreOfOne, IsBlock, RowsFit, block_of};

use crate::spelling::digest_of;
use rmt_columns::Rows;
use rmt_names::PartitionId;
use rmt_values::{Column, Kind, Schema};
use std::alloc::{AllocError, Global};
use std::marker::Model;

/// The rows of an INSERT, in the order in which they were offered, with the types of their columns and the SHA-256 of
/// their bytes. Contracts see it as a `BlockView`.
#[derive(Debug, Drop)]
pub struct Block {
    partition: PartitionId,
    kinds: Vec<Kind>,
    rows: Rows,
    digest: [u8; 32],
}

impl Model for Block {
    ghost use Rattle.std.specs.Prelude.{◌≡◌};
    ghost use Rattle.rmt_block.specs.Blocks.{BlockView, IsBlock};

    ghost Value = { BlockView };

    ghost view = { λ b. record { partition = b.partition; kinds = b.kinds.items; rows = b.rows.rows; digest = b.digest } };

    ghost invariant = { λ b. IsBlock (record { partition = b.partition; kinds = b.kinds.items; rows = b.rows.rows; digest = b.digest }) × (b.rows.kinds ≡ b.kinds.items) };
}

impl Block {
    /// Makes a block of the rows of a table that isn't partitioned, and computes its digest. At an error no memory was
    /// left, and the rows are gone.
    pub fn new(alloc: Global, rows: Rows, schema: &Schema) -> Result<Block, AllocError>
        requires fit { All (λ row. fits schema.now.columns row ≡ true) rows.rows }
        requires few_rows { length rows.rows < 2 ^ 32 }
        requires kinds { rows.kinds ≡ types_of schema.now.columns }
        ensures { IfOk result (λ b. b ≡ block_of None (types_of schema.now.columns) rows.rows) }
    {
        let kinds = kinds_of(alloc, schema.columns())?;
        Block::of_kinds(alloc, None, kinds, rows)
    }

    // Makes a block of rows of this partition that have values of these types.
    pub(crate) fn of_kinds(
        alloc: Global,
        partition: PartitionId,
        kinds: Vec<Kind>,
        rows: Rows,
    ) -> Result<Block, AllocError>
        requires partition { AreOfOne partition rows.rows }
        requires fit { RowsFit kinds.items rows.rows }
        requires few_rows { length rows.rows < 2 ^ 32 }
        requires few_columns { length kinds.items < 2 ^ 16 }
        requires kinds { rows.kinds ≡ kinds.items }
        ensures { IfOk result (λ b. b ≡ block_of partition kinds.items rows.rows) }
    {
        let digest = digest_of(alloc, &kinds, &rows)?;
        Ok(Block {
            partition,
            kinds,
            rows,
            digest,
        })
    }

    /// The partition of its rows.
    pub fn partition(&self) -> PartitionId
        ensures { result ≡ self.now.partition }
    {
        self.partition
    }

    /// The types of its columns, in their order.
    pub fn kinds(&self) -> &[Kind]
        ensures value { result.now ≡ self.now.kinds }
        ensures sound { IsBlock self.now }
    {
        &self.kinds
    }

    /// Its rows, as they were offered.
    pub fn rows(&self) -> &Rows
        ensures value { result.now.rows ≡ self.now.rows }
        ensures kinds { result.now.kinds ≡ self.now.kinds }
        ensures sound { IsBlock self.now }
    {
        &self.rows
    }

    /// The SHA-256 of its bytes, computed when the block was made.
    pub fn digest(&self) -> [u8; 32]
        ensures value { result ≡ self.now.digest }
        ensures sound { IsBlock self.now }
    {
        self.digest
    }

    /// How many rows it has.
    pub fn len(&self) -> usize
        ensures value { result ≡ length self.now.rows }
        ensures sound { IsBlock self.now }
    {
        self.rows.len()
    }
}

// The types of the columns.
pub(crate) fn kinds_of(alloc: Global, columns: &[Column]) -> Result<Vec<Kind>, AllocError>
    ensures { IfOk result (λ kinds. kinds.items ≡ types_of columns.now) }
{
    let mut kinds = Vec::with_capacity(alloc, columns.len())?;
    'columns: for column in columns {
        kinds.push(column.kind)?;
    }
    Ok(kinds)
}
