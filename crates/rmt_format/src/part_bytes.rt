//! A whole part as bytes.
ghost use Rattle.std.specs.Prelude.{◌≡◌, ◌++◌, ◌<◌, ◌^◌, length, IfOk, OnOk};
ghost use Rattle.std.specs.List.{flat_map};
ghost use Rattle.rmt_format.specs.StoredBytes.{RowsAreHeld};
ghost use Rattle.rmt_format.specs.PartBytes.{
  AreInRange,
  HasPartBytes,
  count_bytes,
  data_bytes,
  part_bytes,
  row_bytes,
};

use crate::digest::digest_of;
use crate::granules::put_granules;
use crate::head::put_head;
use rmt_bytes::{put_u32, put_value};
use rmt_granules::PartData;
use rmt_values::{Row, Schema};
use std::alloc::{AllocError, Global};

/// The bytes of a part of a schema. At an error no memory was left.
#[tactic(auto, unfolding(crate::specs::PartBytes::part_bytes))]
pub fn encode(alloc: Global, part: &PartData, schema: &Schema) -> Result<Vec<u8>, AllocError>
    requires { HasPartBytes schema.now part.now }
    ensures ok { IfOk result (λ bytes. bytes.items ≡ part_bytes schema.now part.now) }
    ensures in_range { OnOk result (AreInRange part.now.rows) }
{
    let mut out = Vec::new(alloc);
    put_head(&mut out, schema)?;
    put_data(&mut out, part)?;
    let digest = digest_of(&out);
    out.extend_from_slice(&digest)?;
    Ok(out)
}

// Appends what a part has after the head.
#[tactic(auto, unfolding(crate::specs::PartBytes::data_bytes))]
fn put_data(out: &mut Vec<u8>, part: &PartData) -> Result<(), AllocError>
    requires { length part.now.rows < 2 ^ 32 }
    ensures ok { OnOk result (out.new.items ≡ out.old.items ++ data_bytes part.now) }
    ensures in_range { OnOk result (RowsAreHeld part.now.rows) }
{
    put_counts(out, part)?;
    put_granules(out, part)?;
    put_rows(out, part.marks())?;
    Ok(())
}

// Appends how many rows and granules there are.
fn put_counts(out: &mut Vec<u8>, part: &PartData) -> Result<(), AllocError>
    requires { length part.now.rows < 2 ^ 32 }
    ensures { OnOk result (out.new.items ≡ out.old.items ++ count_bytes part.now) }
{
    let granules = part.marks().len();
    put_u32(out, part.rows() as u32)?;
    put_u32(out, granules as u32)?;
    Ok(())
}

// Appends rows, one after the other.
fn put_rows(out: &mut Vec<u8>, rows: &[Row]) -> Result<(), AllocError>
    ensures { OnOk result (out.new.items ≡ out.old.items ++ flat_map row_bytes rows.now) }
{
    'rows: for row in rows {
        put_row(out, row)?;
    }
    Ok(())
}

// Appends the values of a row.
fn put_row(out: &mut Vec<u8>, row: &Row) -> Result<(), AllocError>
    ensures { OnOk result (out.new.items ≡ out.old.items ++ row_bytes row.now) }
{
    let values = row.values();
    'values: for value in values {
        put_value(out, value)?;
    }
    Ok(())
}
