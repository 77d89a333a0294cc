//! The mutations that are due for the rows of a partition.
ghost use Rattle.std.specs.Prelude.{◌≡◌, nat_lt, false, IfOk};
ghost use Rattle.std.specs.List.{All, filter};
ghost use Rattle.std.specs.declared.option.Option.TheVariants.{Some, None};
ghost use Rattle.rmt_history.specs.Mutations.{HasOrder};
ghost use Rattle.rmt_model.specs.Content.{Row as Values, changed};
ghost use Rattle.rmt_changes.specs.Changes.{in_range as is_in_range, any_mutates, applied_all, entries_of, mutates};

use rmt_entries::Entry;
use rmt_history::number_in;
use rmt_names::PartitionId;
use rmt_row::Seen;
use std::alloc::{AllocError, Global};

/// Returns copies of the tokens of the mutations that have a number in the partition above `low` and, where there is a `high`,
/// at most that, in the order of the tokens. Their commands alone change the rows of the partition. Each token is looked at
/// once, by bisection over its partitions. At an error no memory was left.
pub fn due_mutations(
    alloc: Global,
    tokens: &[Seen<Entry>],
    partition: PartitionId,
    low: u32,
    high: Option<u32>,
) -> Result<Vec<Seen<Entry>>, AllocError>
    requires { All (λ token. HasOrder token.value) tokens.now }
    ensures exact { IfOk result (λ due. due.items
        ≡ filter (λ token. mutates partition (is_in_range low high) token.value) tokens.now) }
    ensures all { IfOk result (λ due. (row : Values) → applied_all (entries_of due.items) row
        ≡ changed (entries_of tokens.now) partition (is_in_range low high) row) }
{
    let mut due = Vec::new(alloc);
    'tokens: for token in tokens {
        if is_due(token.value(), partition, low, high) {
            let copy = token.copy()?;
            due.push(copy)?;
        }
    }
    Ok(due)
}

/// Whether one of the tokens is of a mutation that has a number in the partition above `low`, and so is pending for the rows of a
/// part of this data version. Where there is none, no row is changed. Each token is looked at once at most, by bisection over
/// its partitions.
pub fn is_pending(tokens: &[Seen<Entry>], partition: PartitionId, low: u32) -> bool
    requires { All (λ token. HasOrder token.value) tokens.now }
    ensures exact { result ≡ any_mutates partition (λ k. nat_lt low k) tokens.now }
    ensures none { result ≡ false → (row : Values)
        → changed (entries_of tokens.now) partition (λ k. nat_lt low k) row ≡ Some row }
{
    'tokens: for token in tokens {
        if is_due(token.value(), partition, low, None) {
            return true;
        }
    }
    false
}

/// Whether the entry is a mutation that has a number in the partition above `low` and, where there is a `high`, at most that.
fn is_due(entry: &Entry, partition: PartitionId, low: u32, high: Option<u32>) -> bool
    requires { HasOrder entry.now }
    ensures { result ≡ mutates partition (is_in_range low high) entry.now }
{
    match number_in(entry, partition) {
        Some(number) => in_range(number, low, high),
        None => false,
    }
}

/// Whether the number is above `low` and, where there is a `high`, at most that.
fn in_range(number: u32, low: u32, high: Option<u32>) -> bool
    ensures { result ≡ is_in_range low high number }
{
    match high {
        Some(high) => low < number && number <= high,
        None => low < number,
    }
}
