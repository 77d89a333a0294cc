ghost use Rattle.std.specs.Prelude.{◌≡◌, ◌++◌, ◌<◌, ◌≤◌, ◌^◌, length, map, true, IfOk, OnOk};
ghost use Rattle.std.specs.List.{All};
ghost use Rattle.rmt_values.specs.Rows.{is_value};
ghost use Rattle.sha2.specs.Sha256.{sha256};
ghost use Rattle.rmt_bytes.specs.Encoding.{IsInRange, kind_byte, value_bytes};
ghost use Rattle.rmt_columns.specs.Columns.{value_of};
ghost use Rattle.rmt_columns.specs.RowsByColumn.{row_at};
ghost use Rattle.rmt_block.specs.Blocks.{RowsFit, row_bytes, head_bytes, block_bytes};

use crate::block::Block;
use rmt_bytes::{put_kind, put_u16, put_u32};
use rmt_columns::{ColumnValues, Rows, ValueRef, put_value_ref};
use rmt_values::Kind;
use sha2::{Digest, Sha256};
use std::alloc::{AllocError, Global};

/// The hasher is given this many bytes at a time, and those of one row more.
const HASHED_BYTES: usize = 4096;

/// The bytes of a block, of which its digest is. At an error no memory was left.
pub fn bytes(alloc: Global, block: &Block) -> Result<Vec<u8>, AllocError>
    ensures { IfOk result (λ all. all.items ≡ block_bytes block.now.kinds block.now.rows) }
{
    let rows = block.rows();
    let mut out = Vec::new(alloc);
    push_head(&mut out, block.kinds(), rows.len())?;
    let columns = rows.columns();
    'written: for i in 0..rows.len() {
        push_row(&mut out, columns, i)?;
    }
    Ok(out)
}

/// The SHA-256 of the bytes that a block of these rows has. Some rows at a time go through a buffer, so that the bytes never
/// stand in memory as a whole. At an error no memory was left.
pub fn digest_of(alloc: Global, kinds: &[Kind], rows: &Rows) -> Result<[u8; 32], AllocError>
    requires fit { RowsFit kinds.now rows.now.rows }
    requires few_rows { length rows.now.rows < 2 ^ 32 }
    requires few_columns { length kinds.now < 2 ^ 16 }
    ensures ok { IfOk result (λ digest. digest ≡ sha256 (block_bytes kinds.now rows.now.rows)) }
    ensures in_range { OnOk result (All (λ row. All IsInRange row) rows.now.rows) }
{
    let mut hasher = Sha256::new();
    let mut buffer = Vec::new(alloc);
    push_head(&mut buffer, kinds, rows.len())?;
    let columns = rows.columns();
    'rows: for i in 0..rows.len() {
        push_row(&mut buffer, columns, i)?;
        if buffer.len() < HASHED_BYTES {
            continue;
        }
        hasher.update(buffer.as_slice());
        buffer.clear();
    }
    hasher.update(buffer.as_slice());
    Ok(hasher.finalize())
}

// Writes how many columns there are, the type of each, and how many rows.
fn push_head(out: &mut Vec<u8>, kinds: &[Kind], rows: usize) -> Result<(), AllocError>
    requires few_columns { length kinds.now < 2 ^ 16 }
    requires few_rows { rows < 2 ^ 32 }
    ensures { OnOk result (out.new.items ≡ out.old.items ++ head_bytes kinds.now rows) }
{
    put_u16(out, kinds.len() as u16)?;
    push_kinds(out, kinds)?;
    put_u32(out, rows as u32)?;
    Ok(())
}

// Writes the number that stands for each type.
fn push_kinds(out: &mut Vec<u8>, kinds: &[Kind]) -> Result<(), AllocError>
    ensures { OnOk result (out.new.items ≡ out.old.items ++ map kind_byte kinds.now) }
{
    'kinds: for kind in kinds {
        put_kind(out, *kind)?;
    }
    Ok(())
}

// Writes the values of row `i`, in the order of the columns.
fn push_row(out: &mut Vec<u8>, columns: &[ColumnValues], i: usize) -> Result<(), AllocError>
    requires { All (λ value. is_value value ≡ true) (row_at i columns.now) }
    ensures ok { OnOk result (out.new.items ≡ out.old.items ++ row_bytes (row_at i columns.now)) }
    ensures in_range { OnOk result (All IsInRange (row_at i columns.now)) }
{
    'values: for column in columns {
        if let Some(value) = column.get(i) {
            push_value(out, value)?;
        }
    }
    Ok(())
}

// Writes a value.
fn push_value(out: &mut Vec<u8>, value: ValueRef<'_>) -> Result<(), AllocError>
    requires { is_value (value_of value) ≡ true }
    ensures ok { OnOk result (out.new.items ≡ out.old.items ++ value_bytes (value_of value.entry)) }
    ensures in_range { OnOk result (IsInRange (value_of value.entry)) }
{
    put_value_ref(out, value)
}
