//! Tables with rows as plain data, and what is made of them.
ghost use Rattle.std.specs.Prelude.{◌≡◌, ◌<◌, ◌^◌, length, true, IfOk};
ghost use Rattle.std.specs.List.{All};
ghost use Rattle.rmt_values.specs.Rows.{fits};
ghost use Rattle.rmt_columns.specs.RowsByColumn.{kinds_in};

use rmt_columns::Rows;
use rmt_values::{Blob, Column, Kind, Name, Row, Schema, Value};
use std::alloc::{AllocError, Global};
use std::test::Fail;

/// A value of a row.
#[derive(Clone, Copy)]
pub(crate) enum Datum {
    UInt(u64),
    Int(i64),
    Text(&'static [u8]),
}

/// A table that isn't divided, and rows of it.
pub(crate) struct Table {
    /// The columns, each of one letter.
    pub columns: &'static [(u8, Kind)],
    pub key: &'static [u8],
    pub granularity: u32,
    pub rows: &'static [&'static [Datum]],
}

impl Table {
    pub fn schema(&self, alloc: Global) -> Result<Schema, Fail> {
        let columns = columns_of(alloc, self.columns)?;
        let key = names_of(alloc, self.key)?;
        match Schema::new(alloc, columns, key, None, self.granularity, 100) {
            Ok(schema) => Ok(schema),
            Err(_) => Err("no schema".into()),
        }
    }

    /// The rows held by column.
    pub fn rows(&self, alloc: Global, schema: &Schema) -> Result<Rows, Fail>
        ensures fit { IfOk result (λ all. All (λ row. fits schema.now.columns row ≡ true) all.rows) }
        ensures few_rows { IfOk result (λ all. length all.rows < 2 ^ 32) }
        ensures kinds { IfOk result (λ all. all.kinds ≡ kinds_in schema.now.columns) }
    {
        let rows = rows_of(alloc, self.rows)?;
        match Rows::of_rows(alloc, &rows, schema)? {
            Some(rows) if rows.len() < 1 << 32 => Ok(rows),
            _ => Err("the rows don't fit".into()),
        }
    }
}

fn columns_of(alloc: Global, columns: &[(u8, Kind)]) -> Result<Vec<Column>, AllocError> {
    let mut all = Vec::new(alloc);
    for (letter, kind) in columns {
        let name = Name::from_slice(alloc, &[*letter])?;
        all.push(Column { name, kind: *kind })?;
    }
    Ok(all)
}

fn names_of(alloc: Global, letters: &[u8]) -> Result<Vec<Name>, AllocError> {
    let mut all = Vec::new(alloc);
    for letter in letters {
        all.push(Name::from_slice(alloc, &[*letter])?)?;
    }
    Ok(all)
}

fn rows_of(alloc: Global, rows: &[&[Datum]]) -> Result<Vec<Row>, AllocError> {
    let mut all = Vec::new(alloc);
    for row in rows {
        all.push(row_of(alloc, row)?)?;
    }
    Ok(all)
}

fn row_of(alloc: Global, data: &[Datum]) -> Result<Row, AllocError> {
    let mut values = Vec::new(alloc);
    for datum in data {
        values.push(value_of(alloc, *datum)?)?;
    }
    Ok(Row::new(values))
}

fn value_of(alloc: Global, datum: Datum) -> Result<Value, AllocError> {
    match datum {
        Datum::UInt(number) => Ok(Value::UInt(number)),
        Datum::Int(number) => Ok(Value::Int(number)),
        Datum::Text(bytes) => Ok(Value::Text(Blob::new(Vec::from_slice(alloc, bytes)?))),
    }
}
