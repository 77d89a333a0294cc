//! The tables of the tests, and their schemas.
use rmt_values::{Column, Kind, Name, Schema};
use std::alloc::Global;
use std::sync::Arc;
use std::test::Fail;

/// Columns of UInt64, each of one letter.
fn columns_of(alloc: Global, letters: &[u8]) -> Result<Vec<Column>, Fail> {
    let mut columns = Vec::new(alloc);
    for letter in letters {
        let name = Name::from_slice(alloc, &[*letter])?;
        let kind = Kind::UInt64;
        columns.push(Column { name, kind })?;
    }
    Ok(columns)
}

/// A key of these columns.
fn key_of(alloc: Global, letters: &[u8]) -> Result<Vec<Name>, Fail> {
    let mut key = Vec::new(alloc);
    for letter in letters {
        let name = Name::from_slice(alloc, &[*letter])?;
        key.push(name)?;
    }
    Ok(key)
}

/// A table of these columns, whose key is the first of them.
fn schema_of(
    alloc: Global,
    letters: &[u8],
    partition: Option<(Name, u64)>,
    window: u32,
) -> Result<Arc<Schema, Global>, Fail> {
    let key = key_of(alloc, &letters[..letters.len().min(1)])?;
    let columns = columns_of(alloc, letters)?;
    match Schema::new(alloc, columns, key, partition, 2, window) {
        Ok(schema) => {
            let shared = Arc::new(alloc, schema)?;
            Ok(shared)
        }
        Err(_) => Err("no schema".into()),
    }
}

/// A table of the tests.
#[derive(Clone, Copy)]
pub(crate) enum Table {
    /// The column `c`, not divided, with a window of 100 blocks.
    Whole,
    /// The columns `k`, `u` and `v`, divided by `intDiv(k, 10)`, with this window.
    Divided(u32),
}

impl Table {
    pub fn schema(self, alloc: Global) -> Result<Arc<Schema, Global>, Fail> {
        match self {
            Table::Whole => schema_of(alloc, b"c", None, 100),
            Table::Divided(window) => {
                let column = Name::from_slice(alloc, b"k")?;
                schema_of(alloc, b"kuv", Some((column, 10)), window)
            }
        }
    }
}
