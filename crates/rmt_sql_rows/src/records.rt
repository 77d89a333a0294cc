//! Rows of records of comma-separated values.
ghost use Rattle.std.specs.Prelude.{◌≡◌, ◌<◌, ◌⊎◌, [], IfOk, IfErr, OnOk, length, slice_get, List, ℕ, Ok, true};
ghost use Rattle.std.specs.Option.{option_map};
ghost use Rattle.csv.specs.Reading.{ReadRecord, Ready, is_flexible, reader_trim, took_first};
ghost use Rattle.csv.specs.Records.{fields_of};
ghost use Rattle.csv.specs.declared.reader.Trim.TheVariants as trim;
ghost use Rattle.rmt_columns.specs.RowsByColumn.{kinds_in};
ghost use Rattle.rmt_sql_rows.specs.InsertedRows.{field_value as field_value_of, cell_at, row_of as row_in, rows_from};
ghost use Rattle.rmt_sql_rows.specs.Inserts.{AreCsvRows, IsBadCsvRow};
ghost use Rattle.rmt_sql_rows.specs.PutRows.{IsAtStart};

use crate::cells::{Cells, push_row};
use crate::rows_error::RowsError;
use crate::values::field_value;
use csv::{ByteRecord, ErrorKind, Reader, ReaderBuilder};
use rmt_columns::{Rows, RowsBuilder, ValueRef};
use rmt_values::{Column, Kind};
use std::alloc::Global;
use std::io::Read;

/// The field of a record at a place, counted from 0.
fn field_at(fields: &ByteRecord, place: usize) -> Option<&[u8]>
    ensures { option_map (λ s. s.now) result ≡ slice_get (fields_of fields.now) place }
{
    fields.get(place)
}

impl Cells for ByteRecord {
    ghost count = { λ r. length (fields_of r) };

    ghost value = { λ r. cell_at field_value_of (fields_of r) };

    fn len(&self) -> usize {
        ByteRecord::len(self)
    }

    fn value_in(&self, kind: Kind, place: usize) -> Option<ValueRef<'_>> {
        match field_at(self, place) {
            Some(field) => field_value(kind, field),
            None => None,
        }
    }
}

/// Reads the next record, and says whether there was one. Each record may have its own length, and its fields are bytes.
fn read_record<R: Read>(reader: &mut Reader<R>, row: &mut ByteRecord) -> Result<bool, RowsError>
    requires untrimmed { reader_trim reader.old ≡ trim.None }
    requires ready { Ready reader.old }
    requires flexible { is_flexible reader.old ≡ true }
    ensures reads { IfOk result (λ found.
        ReadRecord R.remaining reader.old reader.new found (fields_of row.new)) }
    ensures ready { OnOk result (took_first reader.new ≡ true) }
    ensures flexible { OnOk result (is_flexible reader.new ≡ true) }
    ensures err { IfErr result (λ e. e ≡ RowsError.Memory) }
{
    match reader.read_byte_record(row) {
        Ok(found) => Ok(found),
        Err(error) => match error.into_kind() {
            ErrorKind::OutOfMemory | ErrorKind::Io(_) => Err(RowsError::Memory),
            ErrorKind::UnequalLengths { .. }
            | ErrorKind::Utf8 { .. }
            | ErrorKind::Serialize(_)
            | ErrorKind::Deserialize { .. } => unreachable!(),
        },
    }
}

/// Puts the rows of an INSERT's data, whose fields are for the columns at these places. BadRow counts records from 1.
fn push_records(
    builder: &mut RowsBuilder,
    reader: &mut Reader<&[u8]>,
    row: &mut ByteRecord,
    columns: &[Column],
    places: &[Option<usize>],
    named: usize,
    bytes: &[u8],
) -> Result<(), RowsError>
    requires places { length places.now ≡ length columns.now }
    requires some { 0 < length columns.now }
    requires empty { builder.old ≡ record { kinds = kinds_in columns.now; rows = []; begun = [] } }
    requires start { IsAtStart bytes.now reader.old }
    ensures ok { OnOk result (AreCsvRows (row_in field_value_of columns.now places.now named) bytes.now builder.new.rows) }
    ensures begun { OnOk result (builder.new.begun ≡ []) }
    ensures kinds { OnOk result (builder.new.kinds ≡ kinds_in columns.now) }
    ensures refused { IfErr result (λ e. (e ≡ RowsError.Memory)
        ⊎ IsBadCsvRow (row_in field_value_of columns.now places.now named) bytes.now e) }
{
    // Each record has a byte at least, so there are no more records than bytes.
    'records: for i in 0..bytes.len() {
        if !read_record(reader, row)? {
            return Ok(());
        }
        if !push_row(builder, columns, places, named, row)? {
            return Err(RowsError::BadRow(i as u64 + 1));
        }
    }
    Ok(())
}

/// The rows of an INSERT's data, whose fields are for the columns at these places. BadRow counts records from 1.
pub fn rows_of_data(
    alloc: Global,
    columns: &[Column],
    places: &[Option<usize>],
    named: usize,
    bytes: &[u8],
) -> Result<Rows, RowsError>
    requires places { length places.now ≡ length columns.now }
    requires some { 0 < length columns.now }
    ensures ok { IfOk result (λ all. AreCsvRows (row_in field_value_of columns.now places.now named) bytes.now all.rows) }
    ensures kinds { IfOk result (λ all. all.kinds ≡ kinds_in columns.now) }
    ensures refused { IfErr result (λ e. (e ≡ RowsError.Memory)
        ⊎ IsBadCsvRow (row_in field_value_of columns.now places.now named) bytes.now e) }
{
    let mut builder = RowsBuilder::new(alloc, columns)?;
    let mut reader = ReaderBuilder::new()
        .has_headers(false)
        .flexible(true)
        .from_reader(alloc, bytes);
    let mut record = ByteRecord::new(alloc);
    push_records(
        &mut builder,
        &mut reader,
        &mut record,
        columns,
        places,
        named,
        bytes,
    )?;
    Ok(builder.into_rows())
}
