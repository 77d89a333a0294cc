ghost use Rattle.std.specs.Prelude.{◌≡◌, ◌++◌, true, OnOk, OnErr};
ghost use Rattle.rmt_values.specs.Rows.{is_value};
ghost use Rattle.rmt_bytes.specs.Encoding.{Begins, IsInRange, value_bytes};
ghost use Rattle.rmt_columns.specs.Columns.{value_of};

use crate::value_ref::ValueRef;
use rmt_bytes::{put_i64, put_text, put_u64};
use std::alloc::AllocError;

/// Appends a value that lies in a column without its type. At an error no memory was left, and a prefix of its bytes may have
/// been appended.
pub fn put_value_ref(out: &mut Vec<u8>, value: ValueRef<'_>) -> Result<(), AllocError>
    ensures ok { OnOk result (out.new.items ≡ out.old.items ++ value_bytes (value_of value.entry)) }
    ensures err { OnErr result (Begins out.old.items out.new.items) }
    ensures in_range { is_value (value_of value.entry) ≡ true → IsInRange (value_of value.entry) }
{
    match value {
        ValueRef::UInt(number) => put_u64(out, number)?,
        ValueRef::Int(number) => put_i64(out, number)?,
        ValueRef::Text(text) => put_text(out, text)?,
    }
    Ok(())
}
