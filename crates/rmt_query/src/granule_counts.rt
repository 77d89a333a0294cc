//! The granules that a query reads, counted.
ghost use Rattle.std.specs.Prelude.{◌≡◌, IfOk};
ghost use Rattle.std.specs.List.{All};
ghost use Rattle.rmt_partset.specs.Snapshots.{names_in, data_in};
ghost use Rattle.rmt_query.specs.Explained.{IsCounted, AreExplained};

use rmt_granules::PartData;
use rmt_keyrange::{range_of, select};
use rmt_names::PartName;
use rmt_partset::{NamedPart, Snapshot};
use rmt_values::{Checked, CheckedQuery, Schema};
use std::alloc::{AllocError, Global};

/// For each part of a snapshot its name, how many of its granules a query of a schema reads, and how many there are. The
/// parts are of its table.
pub fn explain(
    alloc: Global,
    snapshot: &Snapshot,
    query: &CheckedQuery,
    schema: &Schema,
) -> Result<Vec<(PartName, usize, usize)>, AllocError>
    requires { All (λ part. part.rows.key ≡ schema.now.key) snapshot.now }
    ensures { IfOk result (λ all. AreExplained query.now.filter
        (names_in snapshot.now) (data_in snapshot.now) all.items) }
{
    granules_of(alloc, snapshot.parts(), &query.filter, schema)
}

/// For each part its name, how many of its granules a filter chooses, and how many there are.
fn granules_of(
    alloc: Global,
    parts: &[NamedPart],
    filter: &Option<Checked>,
    schema: &Schema,
) -> Result<Vec<(PartName, usize, usize)>, AllocError>
    requires { All (λ part. part.rows.key ≡ schema.now.key) parts.now }
    ensures { IfOk result (λ all. AreExplained filter.now (names_in parts.now) (data_in parts.now) all.items) }
{
    let mut all = Vec::with_capacity(alloc, parts.len())?;
    'parts: for part in parts {
        let count = counted(part.data(), filter, schema)?;
        all.push((*part.name(), count.0, count.1))?;
    }
    Ok(all)
}

/// How many of a part's granules a filter chooses, and how many there are.
fn counted(
    part: &PartData,
    filter: &Option<Checked>,
    schema: &Schema,
) -> Result<(usize, usize), AllocError>
    requires { part.now.key ≡ schema.now.key }
    ensures { IfOk result (λ counts. IsCounted filter.now part.now counts) }
{
    let all = part.granules();
    match filter {
        None => Ok((all, all)),
        Some(filter) => {
            let range = range_of(filter, schema)?;
            let (first, past) = select(part, &range);
            Ok((past - first, all))
        }
    }
}
