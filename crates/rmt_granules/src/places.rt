//! The places of the rows of several parts, in the order of the rows.
ghost use Rattle.std.specs.Prelude.{◌≡◌, ◌+◌, ◌<◌, ◌≤◌, ◌++◌, IsTrue, length, map, slice_get, take, drop, IfOk};
ghost use Rattle.std.specs.Arc.{arc_value};
ghost use Rattle.rmt_values.specs.Order.{in_order};
ghost use Rattle.rmt_granules.specs.MergedData.{AreDataOf};
ghost use Rattle.rmt_granules.specs.Places.{place_cmp, places_from, all_places, AreOf, LeadAll, numbers_at};

use crate::part_data::PartData;
use crate::place::Place;
use rmt_values::Schema;
use std::alloc::{AllocError, Global};
use std::cmp::Ordering;
use std::sync::Arc;

/// The places of the rows of so many parts, the first of which has this number, in the order of the rows; those of
/// equal keys in the order of the parts.
pub fn merged_places(
    alloc: Global,
    parts: &[Arc<PartData, Global>],
    leading: &[&[u64]],
    schema: &Schema,
    first: usize,
    count: usize,
) -> Result<Vec<Place>, AllocError>
    requires parts { AreDataOf schema.now (map arc_value parts.now) }
    requires leading { LeadAll schema.now.key (map arc_value parts.now) leading.now }
    requires there { first + count ≤ length parts.now }
    ensures order { IfOk result (λ places. places.items
        ≡ in_order (place_cmp schema.now.key (map arc_value parts.now))
        (all_places first (take count (drop first (map arc_value parts.now))))) }
    ensures there { IfOk result (λ places. AreOf (length parts.now) places.items) }
{
    if count == 0 {
        return Ok(Vec::new(alloc));
    }
    if count == 1 {
        let places = places_of(alloc, first, parts[first].rows())?;
        return Ok(places);
    }
    let half = count / 2;
    let left = merged_places(alloc, parts, leading, schema, first, half)?;
    let right = merged_places(alloc, parts, leading, schema, first + half, count - half)?;
    let places = merged_two(alloc, parts, leading, schema, left, &right)?;
    Ok(places)
}

/// The numbers that lead the rows of each part.
pub fn leading_of<'a>(
    alloc: Global,
    parts: &'a [Arc<PartData, Global>],
    schema: &Schema,
) -> Result<Vec<&'a [u64]>, AllocError>
    requires { AreDataOf schema.now (map arc_value parts.now) }
    ensures { IfOk result (λ leading. LeadAll schema.now.key (map arc_value parts.now) leading.items) }
{
    let mut leading = Vec::with_capacity(alloc, parts.len())?;
    'parts: for part in parts {
        leading.push(part.leading_numbers())?;
    }
    Ok(leading)
}

/// The places of the rows of one part.
fn places_of(alloc: Global, part: usize, rows: usize) -> Result<Vec<Place>, AllocError>
    ensures { IfOk result (λ places. places.items ≡ places_from part 0 rows) }
{
    let mut places = Vec::with_capacity(alloc, rows)?;
    'rows: for row in 0..rows {
        places.push(Place { part, row })?;
    }
    Ok(places)
}

/// The places of two lists, each in the order of its rows, in one order; of equal rows the first list's go first. A
/// list whose rows come after those of the other is appended as it is.
fn merged_two(
    alloc: Global,
    parts: &[Arc<PartData, Global>],
    leading: &[&[u64]],
    schema: &Schema,
    left: Vec<Place>,
    right: &[Place],
) -> Result<Vec<Place>, AllocError>
    requires parts { AreDataOf schema.now (map arc_value parts.now) }
    requires leading { LeadAll schema.now.key (map arc_value parts.now) leading.now }
    requires left_there { AreOf (length parts.now) left.items }
    requires right_there { AreOf (length parts.now) right.now }
    requires left_ordered { in_order (place_cmp schema.now.key (map arc_value parts.now)) left.items ≡ left.items }
    requires right_ordered { in_order (place_cmp schema.now.key (map arc_value parts.now)) right.now ≡ right.now }
    ensures { IfOk result (λ places. places.items
        ≡ in_order (place_cmp schema.now.key (map arc_value parts.now)) (left.items ++ right.now)) }
{
    if follows(parts, leading, schema, &left, right) {
        let mut places = left;
        places.extend_from_slice(right)?;
        return Ok(places);
    }
    let places = interleaved(alloc, parts, leading, schema, &left, right)?;
    Ok(places)
}

/// Whether both lists have places, and the first's last row isn't above the second's first.
fn follows(
    parts: &[Arc<PartData, Global>],
    leading: &[&[u64]],
    schema: &Schema,
    left: &[Place],
    right: &[Place],
) -> bool
    requires parts { AreDataOf schema.now (map arc_value parts.now) }
    requires leading { LeadAll schema.now.key (map arc_value parts.now) leading.now }
    requires left_there { AreOf (length parts.now) left.now }
    requires right_there { AreOf (length parts.now) right.now }
    requires left_ordered { in_order (place_cmp schema.now.key (map arc_value parts.now)) left.now ≡ left.now }
    requires right_ordered { in_order (place_cmp schema.now.key (map arc_value parts.now)) right.now ≡ right.now }
    ensures { IsTrue result
        → in_order (place_cmp schema.now.key (map arc_value parts.now)) (left.now ++ right.now)
        ≡ left.now ++ right.now }
{
    if left.len() == 0 || right.len() == 0 {
        return false;
    }
    let end = left.len() - 1;
    let order = order_of_places(parts, leading, schema, left[end], right[0]);
    !order.is_gt()
}

/// The same of lists that interleave: the lesser of the two heads goes first, again and again.
fn interleaved(
    alloc: Global,
    parts: &[Arc<PartData, Global>],
    leading: &[&[u64]],
    schema: &Schema,
    left: &[Place],
    right: &[Place],
) -> Result<Vec<Place>, AllocError>
    requires parts { AreDataOf schema.now (map arc_value parts.now) }
    requires leading { LeadAll schema.now.key (map arc_value parts.now) leading.now }
    requires left_there { AreOf (length parts.now) left.now }
    requires right_there { AreOf (length parts.now) right.now }
    requires left_ordered { in_order (place_cmp schema.now.key (map arc_value parts.now)) left.now ≡ left.now }
    requires right_ordered { in_order (place_cmp schema.now.key (map arc_value parts.now)) right.now ≡ right.now }
    ensures { IfOk result (λ places. places.items
        ≡ in_order (place_cmp schema.now.key (map arc_value parts.now)) (left.now ++ right.now)) }
{
    let mut merged = Vec::with_capacity(alloc, left.len().saturating_add(right.len()))?;
    let mut i = 0;
    let mut j = 0;
    'heads: while i < left.len() && j < right.len() {
        let (a, b) = (left[i], right[j]);
        let order = order_of_places(parts, leading, schema, a, b);
        if order.is_gt() {
            merged.push(b)?;
            j += 1;
            continue;
        }
        merged.push(a)?;
        i += 1;
    }
    merged.extend_from_slice(left.split_at(i).1)?;
    merged.extend_from_slice(right.split_at(j).1)?;
    Ok(merged)
}

/// The order of the rows at two places. The rows are read only where the numbers that lead them don't tell it.
fn order_of_places(
    parts: &[Arc<PartData, Global>],
    leading: &[&[u64]],
    schema: &Schema,
    a: Place,
    b: Place,
) -> Ordering
    requires parts { AreDataOf schema.now (map arc_value parts.now) }
    requires leading { LeadAll schema.now.key (map arc_value parts.now) leading.now }
    requires first { a.part < length parts.now }
    requires second { b.part < length parts.now }
    ensures { result ≡ place_cmp schema.now.key (map arc_value parts.now) a b }
{
    match (leading_number(leading, a), leading_number(leading, b)) {
        (Some(m), Some(n)) => match m.cmp(&n) {
            Ordering::Equal => order_of_rows(parts, schema, a, b),
            unequal => unequal,
        },
        (Some(_), None) | (None, Some(_)) | (None, None) => order_of_rows(parts, schema, a, b),
    }
}

/// The number that leads the row at a place, where there is one.
fn leading_number(leading: &[&[u64]], place: Place) -> Option<u64>
    requires { place.part < length leading.now }
    ensures { result ≡ slice_get (numbers_at leading.now place.part) place.row }
{
    number_at(leading[place.part], place.row)
}

/// Number `i`, counted from 0, where there is one.
fn number_at(numbers: &[u64], i: usize) -> Option<u64>
    ensures { result ≡ slice_get numbers.now i }
{
    match numbers.get(i) {
        Some(number) => Some(*number),
        None => None,
    }
}

/// The order of the rows at two places, value by value.
fn order_of_rows(parts: &[Arc<PartData, Global>], schema: &Schema, a: Place, b: Place) -> Ordering
    requires parts { AreDataOf schema.now (map arc_value parts.now) }
    requires first { a.part < length parts.now }
    requires second { b.part < length parts.now }
    ensures { result ≡ place_cmp schema.now.key (map arc_value parts.now) a b }
{
    parts[a.part].key_order(a.row, &parts[b.part], b.row)
}
