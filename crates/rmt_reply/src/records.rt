//! Records of answers, by the writer of the crate csv.
ghost use Rattle.std.specs.Prelude.{◌≡◌, ◌++◌, ◌∷◌, [], IfOk, OnOk, map};
ghost use Rattle.csv.specs.Records.{fields_of, partial_of};
ghost use Rattle.csv.specs.Writing.{default_writer, row_text};
ghost use Rattle.rmt_reply.specs.RecordWriters.{IsBetweenRecords, text_in};
ghost use Rattle.rmt_reply.specs.Printed.{answer_text, cell_text, records_text};

use crate::texts::{push_number, push_text};
use csv::{ByteRecord, ErrorKind, Writer, WriterBuilder};
use rmt_list::List;
use rmt_query::Tuple;
use rmt_values::Cell;
use std::alloc::{AllocError, Global};

/// Adds a field to a record, where no field is begun.
fn push_field(fields: &mut ByteRecord, text: &[u8]) -> Result<(), AllocError>
    requires { partial_of fields.old ≡ [] }
    ensures fields { OnOk result (fields_of fields.new ≡ fields_of fields.old ++ text.now ∷ []) }
    ensures partial { OnOk result (partial_of fields.new ≡ []) }
{
    fields.push_field(text)?;
    Ok(())
}

/// Adds a cell to a record, where no field is begun.
fn push_cell(alloc: Global, fields: &mut ByteRecord, cell: &Cell) -> Result<(), AllocError>
    requires { partial_of fields.old ≡ [] }
    ensures fields { OnOk result
        (fields_of fields.new ≡ fields_of fields.old ++ cell_text cell.now ∷ []) }
    ensures partial { OnOk result (partial_of fields.new ≡ []) }
{
    match cell {
        Cell::UInt(value) => push_field(fields, value.to_string(alloc)?.as_bytes())?,
        Cell::Int(value) => push_field(fields, value.to_string(alloc)?.as_bytes())?,
        Cell::Sum(value) => push_field(fields, value.to_string(alloc)?.as_bytes())?,
        Cell::Text(value) => push_field(fields, value.as_bytes())?,
    }
    Ok(())
}

/// Makes a record the cells of a row.
fn fill(alloc: Global, fields: &mut ByteRecord, row: &Tuple) -> Result<(), AllocError>
    ensures { OnOk result (fields_of fields.new ≡ map cell_text row.now) }
{
    fields.clear();
    'cells: for one in row.cells() {
        push_cell(alloc, fields, one)?;
    }
    Ok(())
}

/// A writer of records that may differ in length; the rows of one answer don't.
fn writer_to(out: Vec<u8>) -> Writer<Vec<u8>>
    ensures between { IsBetweenRecords result }
    ensures text { text_in result ≡ out.items }
{
    WriterBuilder::new().flexible(true).from_writer(out)
}

/// Writes a record. Over a `Vec` the only error is out of memory.
fn write(writer: &mut Writer<Vec<u8>>, fields: &ByteRecord) -> Result<(), AllocError>
    requires { IsBetweenRecords writer.old }
    ensures between { OnOk result (IsBetweenRecords writer.new) }
    ensures text { let written = row_text default_writer (fields_of fields.now) in
        OnOk result (text_in writer.new ≡ text_in writer.old ++ written) }
{
    match writer.write_byte_record(fields) {
        Ok(()) => {}
        Err(error) => match error.into_kind() {
            ErrorKind::OutOfMemory | ErrorKind::Io(_) => return Err(AllocError),
            // No clause of the writer rules these out; it gives them for records of unequal lengths, which are allowed
            // here, and for values that aren't bytes.
            ErrorKind::UnequalLengths { .. }
            | ErrorKind::Utf8 { .. }
            | ErrorKind::Serialize(_)
            | ErrorKind::Deserialize { .. } => return Err(AllocError),
        },
    }
    Ok(())
}

/// The text that was written.
fn into_text(writer: Writer<Vec<u8>>) -> Result<Vec<u8>, AllocError>
    ensures { IfOk result (λ out. out.items ≡ text_in writer) }
{
    match writer.into_inner() {
        Ok(out) => Ok(out),
        Err(_) => Err(AllocError),
    }
}

/// The records of rows.
fn records(alloc: Global, rows: &[Tuple]) -> Result<Vec<u8>, AllocError>
    ensures { IfOk result (λ out. out.items ≡ records_text rows.now) }
{
    let mut writer = writer_to(Vec::new(alloc));
    let mut fields = ByteRecord::new(alloc);
    'rows: for row in rows {
        fill(alloc, &mut fields, row)?;
        write(&mut writer, &fields)?;
    }
    into_text(writer)
}

/// Adds the records of rows.
pub(crate) fn push_records(
    alloc: Global,
    out: &mut Vec<u8>,
    rows: &[Tuple],
) -> Result<(), AllocError>
    ensures { OnOk result (out.new.items ≡ out.old.items ++ records_text rows.now) }
{
    let written = records(alloc, rows)?;
    push_text(out, written.as_slice())?;
    Ok(())
}

/// Adds how many rows there are, and the rows.
pub(crate) fn push_answer(
    alloc: Global,
    out: &mut Vec<u8>,
    rows: &List<Tuple>,
) -> Result<(), AllocError>
    ensures { OnOk result (out.new.items ≡ out.old.items ++ answer_text rows.now) }
{
    let all = rows.as_slice();
    push_text(out, b"rows ")?;
    push_number(alloc, out, all.len() as u128)?;
    push_text(out, b"\n")?;
    push_records(alloc, out, all)?;
    Ok(())
}
