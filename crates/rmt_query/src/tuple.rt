ghost use Rattle.std.specs.Prelude.{◌≡◌, slice_get};
ghost use Rattle.std.specs.Option.{option_cmp};
ghost use Rattle.rmt_query.specs.Cells.{cell_order, tuple_cmp};
ghost use Rattle.rmt_query.specs.Distinct.{tuple_cmp_at};

use crate::cells::compare_cells;
use rmt_values::Cell;
use std::cmp::Ordering;
use std::marker::Model;

/// One line of an answer. Contracts see the list of its cells.
#[derive(Debug, Drop)]
pub struct Tuple {
    cells: Vec<Cell>,
}

impl Model for Tuple {
    ghost use Rattle.std.specs.Prelude.{List};
    ghost use Rattle.rmt_values.specs.declared.cell.Cell.{Cell};

    ghost Value = { List Cell };

    ghost view = { λ t. t.cells.items };
}

impl Tuple {
    /// Makes a tuple of these cells.
    pub fn new(cells: Vec<Cell>) -> Tuple
        ensures { result ≡ cells.items }
    {
        Tuple { cells }
    }

    /// Its cells, in the order of the query's items.
    pub fn cells(&self) -> &[Cell]
        ensures { result.now ≡ self.now }
    {
        &self.cells
    }

    /// The order of tuples: from left to right, numbers as numbers and Strings by their bytes.
    pub fn compare(&self, other: &Tuple) -> Ordering
        ensures { result ≡ tuple_cmp self.now other.now }
    {
        let (left, right) = (self.cells(), other.cells());
        compare_from(left, right)
    }
}

/// The order of lists of cells, from left to right.
fn compare_from(left: &[Cell], right: &[Cell]) -> Ordering
    ensures { result ≡ tuple_cmp left.now right.now }
{
    match left {
        [] => match right {
            [] => Ordering::Equal,
            [_, ..] => Ordering::Less,
        },
        [a, others @ ..] => match right {
            [] => Ordering::Greater,
            [b, rest @ ..] => match compare_cells(a, b) {
                Ordering::Equal => compare_from(others, rest),
                unequal => unequal,
            },
        },
    }
}

/// The order of tuples by their cells at these places, one place after the other. A missing cell comes first.
pub fn compare_at(places: &[usize], a: &Tuple, b: &Tuple) -> Ordering
    ensures { result ≡ tuple_cmp_at places.now a.now b.now }
{
    let (left, right) = (a.cells(), b.cells());
    'places: for place in places {
        match compare_cells_at(*place, left, right) {
            Ordering::Equal => {}
            unequal => return unequal,
        }
    }
    Ordering::Equal
}

/// The order of the cells that two lists have at a place. A missing one comes first.
fn compare_cells_at(place: usize, left: &[Cell], right: &[Cell]) -> Ordering
    ensures { result ≡ option_cmp cell_order (slice_get left.now place) (slice_get right.now place) }
{
    match (left.get(place), right.get(place)) {
        (Some(a), Some(b)) => compare_cells(a, b),
        (Some(_), None) => Ordering::Greater,
        (None, Some(_)) => Ordering::Less,
        (None, None) => Ordering::Equal,
    }
}
