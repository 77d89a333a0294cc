//! The plain table that a cluster has to show.
use crate::commands::command_of;
use crate::record::{Made, Record};
use crate::rows::{Numbers, rows_of, sorted};
use rmt_entries::Entry;
use rmt_history::LogCopy;
use rmt_list::List;
use rmt_names::PartitionId;
use rmt_plain::{Accepted, PlainTable};
use rmt_values::{Row, Schema};
use std::alloc::Global;
use std::test::Fail;

/// The partition of rows of the divided table.
fn partition_of(rows: Numbers) -> PartitionId {
    match rows {
        [[key, ..], ..] => Some(*key / 10),
        _ => None,
    }
}

/// The plain rows of what was accepted, in order of all columns. The numbers of mutations and drops are read from the log.
pub(crate) fn plain_rows(
    alloc: Global,
    schema: &Schema,
    record: &Record,
    copy: &LogCopy,
) -> Result<Vec<Row>, Fail> {
    let mut table = PlainTable::new(alloc);
    for (place, made) in record.accepted() {
        table.accept(accepted_of(alloc, schema, copy, *place, *made)?)?;
    }
    Ok(sorted(table.rows(alloc)?)?)
}

/// What was accepted at a place of the log.
fn accepted_of(
    alloc: Global,
    schema: &Schema,
    copy: &LogCopy,
    place: u32,
    made: Made,
) -> Result<Accepted, Fail> {
    let Some(token) = copy.entry(place as usize) else {
        return Err("the entry isn't in the log".into());
    };
    match (made, token.value()) {
        (Made::Block(rows, number), Entry::Get { number: taken, .. }) if number == *taken => {
            block(alloc, rows, number)
        }
        (Made::Mutation(script), Entry::Mutation { numbers, .. }) => {
            mutation(alloc, schema, numbers.as_slice(), script)
        }
        (Made::Drop(partition), Entry::DropRange { number, .. }) => Ok(Accepted::DropRange {
            partition,
            number: *number,
        }),
        _ => Err("another entry is in the log".into()),
    }
}

/// A block of these rows.
fn block(alloc: Global, rows: Numbers, number: u32) -> Result<Accepted, Fail> {
    let partition = partition_of(rows);
    let rows = List::new(rows_of(alloc, rows)?);
    Ok(Accepted::Block {
        partition,
        number,
        rows,
    })
}

/// A mutation of a command that took these numbers.
fn mutation(
    alloc: Global,
    schema: &Schema,
    numbers: &[(PartitionId, u32)],
    script: &str,
) -> Result<Accepted, Fail> {
    let command = command_of(alloc, schema, script)?;
    let numbers = List::new(Vec::from_slice(alloc, numbers)?);
    Ok(Accepted::Mutation { numbers, command })
}

/// How many entries of the log are by clients.
pub(crate) fn client_entries(copy: &LogCopy) -> usize {
    let mut count = 0;
    for place in 0..copy.len() {
        if let Some(token) = copy.entry(place) {
            if !matches!(token.value(), Entry::Merge { .. } | Entry::Mutate { .. }) {
                count += 1;
            }
        }
    }
    count
}
