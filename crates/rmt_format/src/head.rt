//! What all parts of a schema begin with.
ghost use Rattle.std.specs.Prelude.{◌≡◌, ◌++◌, OnOk};
ghost use Rattle.std.specs.Int.{w16, to_be_bytes};
ghost use Rattle.rmt_bytes.specs.Encoding.{list_bytes};
ghost use Rattle.rmt_format.specs.PartBytes.{column_bytes, head_bytes};

use rmt_bytes::{put_kind, put_len, put_text, put_u16, put_u32};
use rmt_values::{Column, Schema};
use std::alloc::AllocError;

/// The first bytes of each part, which tell the version too.
const MAGIC: [u8; 8] = *b"RMTPART1";

/// Appends what all parts of a schema begin with.
#[tactic(auto, unfolding(crate::specs::PartBytes::head_bytes))]
pub fn put_head(out: &mut Vec<u8>, schema: &Schema) -> Result<(), AllocError>
    ensures { OnOk result (out.new.items ≡ out.old.items ++ head_bytes schema.now) }
{
    out.extend_from_slice(&MAGIC)?;
    put_columns(out, schema.columns())?;
    put_key(out, schema.key())?;
    put_u32(out, schema.granularity())?;
    Ok(())
}

// Appends the columns, after their number.
fn put_columns(out: &mut Vec<u8>, columns: &[Column]) -> Result<(), AllocError>
    ensures { OnOk result (out.new.items ≡ out.old.items ++ list_bytes column_bytes columns.now) }
{
    put_len(out, columns.len())?;
    'columns: for column in columns {
        put_column(out, column)?;
    }
    Ok(())
}

// Appends a column: its type, and its name after the name's length.
fn put_column(out: &mut Vec<u8>, column: &Column) -> Result<(), AllocError>
    ensures { OnOk result (out.new.items ≡ out.old.items ++ column_bytes column.now) }
{
    put_kind(out, column.kind)?;
    put_text(out, column.name.as_bytes())?;
    Ok(())
}

// Appends the places of the key's columns, after their number.
fn put_key(out: &mut Vec<u8>, key: &[u16]) -> Result<(), AllocError>
    ensures { OnOk result (out.new.items ≡ out.old.items ++ list_bytes (to_be_bytes w16) key.now) }
{
    put_len(out, key.len())?;
    'places: for place in key {
        put_u16(out, *place)?;
    }
    Ok(())
}
