//! The columns of a GROUP BY and the items of a SELECT, each once.
ghost use Rattle.std.specs.Prelude.{◌≡◌, ◌⊎◌, ℕ, List, true, false, slice_get, IfOk};
ghost use Rattle.std.specs.declared.option.Option.TheVariants.{Some};
ghost use Rattle.rmt_query.specs.Distinct.{OrderAlike, OrderTuplesAlike, flag_of as flag};

use rmt_values::CheckedItem;
use std::alloc::{AllocError, Global};

/// How many columns a table has at most.
const COLUMNS: usize = 64;

/// How many distinct items there are over the columns of a table at most: four of each column, and the count.
const ITEMS: usize = 1 + 4 * COLUMNS;

/// The columns, each at its first place. They order rows as before. At an error no memory was left.
pub fn distinct_columns(alloc: Global, columns: &[u16]) -> Result<Vec<u16>, AllocError>
    ensures { IfOk result (λ distinct. OrderAlike distinct.items columns.now) }
{
    let mut seen = [false; COLUMNS];
    let mut distinct = Vec::new(alloc);
    'columns: for column in columns {
        if !is_new(&mut seen, usize::from(*column)) {
            continue;
        }
        distinct.push(*column)?;
    }
    Ok(distinct)
}

/// The first place of each distinct item. The cells at these places order tuples of the items as all their cells do. At an
/// error no memory was left.
pub fn distinct_places(alloc: Global, items: &[CheckedItem]) -> Result<Vec<usize>, AllocError>
    ensures { IfOk result (λ places. OrderTuplesAlike places.items items.now items.now) }
{
    let mut seen = [false; ITEMS];
    let mut places = Vec::new(alloc);
    'places: for place in 0..items.len() {
        if !is_new(&mut seen, flag_of(items[place])) {
            continue;
        }
        places.push(place)?;
    }
    Ok(places)
}

/// The number of an item's flag; no other item has it.
fn flag_of(item: CheckedItem) -> usize
    ensures { result ≡ flag item }
{
    match item {
        CheckedItem::Column(column) => 1 + 4 * usize::from(column),
        CheckedItem::Count => 0,
        CheckedItem::Sum(column) => 2 + 4 * usize::from(column),
        CheckedItem::Min(column) => 3 + 4 * usize::from(column),
        CheckedItem::Max(column) => 4 + 4 * usize::from(column),
    }
}

/// Whether the number isn't marked as seen. It is from then on, where it has a flag.
fn is_new(seen: &mut [bool], number: usize) -> bool
    ensures marked { result ≡ false → slice_get seen.old number ≡ Some true }
    ensures others { (n : ℕ) → slice_get seen.new n ≡ Some true → (n ≡ number) ⊎ (slice_get seen.old n ≡ Some true) }
    ensures again { result ≡ false → seen.new ≡ seen.old }
{
    if number >= seen.len() {
        return true;
    }
    if seen[number] {
        return false;
    }
    seen[number] = true;
    true
}
