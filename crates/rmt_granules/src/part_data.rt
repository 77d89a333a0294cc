ghost use Rattle.std.specs.Prelude.{◌≡◌, ◌<◌, ◌≤◌, ◌+◌, ◌*◌, true, length, slice_get, get_or, [], IfOk};
ghost use Rattle.std.specs.List.{All};
ghost use Rattle.std.specs.List.Sorted.{IsSorted};
ghost use Rattle.rmt_values.specs.Rows.{fits, key_cmp};
ghost use Rattle.rmt_columns.specs.RowsByColumn.{rows_of, kinds_of, kinds_in, AreLong};
ghost use Rattle.rmt_granules.specs.Granules.{IsPart, Rising, granule_of};
ghost use Rattle.rmt_granules.specs.MadePart.{data_of};
ghost use Rattle.rmt_granules.specs.Places.{Lead};

use crate::index::marks_in;
use rmt_columns::{ColumnValues, Rows};
use rmt_values::{Row, Schema};
use std::alloc::{AllocError, Global};
use std::cmp::Ordering;
use std::marker::Model;

/// The rows of a part, sorted by key, in granules of so many rows, with a mark for each granule: the key of its first
/// row. Contracts see it as a `PartView`.
#[derive(Debug, Drop)]
pub struct PartData {
    rows: Rows,
    marks: Vec<Row>,
    key: Vec<u16>,
    granularity: u32,
}

impl Model for PartData {
    ghost use Rattle.rmt_granules.specs.Granules.{PartView, IsPart};
    ghost use Rattle.rmt_granules.specs.MadePart.{stored_part};

    ghost Value = { PartView };

    ghost view = { λ p. stored_part p.rows p.marks.items p.key.items p.granularity };

    ghost invariant = { λ p. IsPart (stored_part p.rows p.marks.items p.key.items p.granularity) };
}

/// Makes a part of the rows of a schema, which are sorted by its key.
pub fn from_rows(alloc: Global, rows: Rows, schema: &Schema) -> Result<PartData, AllocError>
    requires fit { All (λ row. fits schema.now.columns row ≡ true) rows.rows }
    requires sorted { IsSorted (key_cmp schema.now.key) rows.rows }
    requires kinds { rows.kinds ≡ kinds_in schema.now.columns }
    ensures { IfOk result (λ part. part ≡ data_of schema.now rows.rows) }
{
    let granularity = schema.granularity();
    let key = Vec::from_slice(alloc, schema.key())?;
    let marks = marks_in(alloc, &rows, &key, granularity)?;
    Ok(PartData {
        rows,
        marks,
        key,
        granularity,
    })
}

impl PartData {
    /// The rows, which lie in columns.
    pub fn data(&self) -> &Rows
        ensures rows { result.now.rows ≡ self.now.rows }
        ensures kinds { result.now.kinds ≡ self.now.kinds }
    {
        &self.rows
    }

    /// The columns, in the schema's order.
    pub fn columns(&self) -> &[ColumnValues]
        ensures rows { rows_of (length self.now.rows) result.now ≡ self.now.rows }
        ensures kinds { kinds_of result.now ≡ self.now.kinds }
        ensures long { AreLong (length self.now.rows) result.now }
    {
        self.rows.columns()
    }

    /// How many rows there are.
    pub fn rows(&self) -> usize
        ensures { result ≡ length self.now.rows }
    {
        self.rows.len()
    }

    /// How many granules there are: the last one may have fewer rows than the others.
    pub fn granules(&self) -> usize
        ensures marks { result ≡ length self.now.marks }
        ensures enough { length self.now.rows ≤ result * self.now.granularity }
        ensures no_more { result * self.now.granularity < length self.now.rows + self.now.granularity }
    {
        self.marks.len()
    }

    /// The marks: the key of each granule's first row.
    pub fn marks(&self) -> &[Row]
        ensures value { result.now ≡ self.now.marks }
        ensures part { IsPart self.now }
        ensures rising { Rising result.now }
    {
        &self.marks
    }

    /// The places of the key's columns, counted from 0, in the order of the key.
    pub fn key(&self) -> &[u16]
        ensures { result.now ≡ self.now.key }
    {
        &self.key
    }

    /// How many rows a granule has.
    pub fn granularity(&self) -> u32
        ensures { result ≡ self.now.granularity }
    {
        self.granularity
    }

    /// A copy of row `i`, counted from 0; `None` where there is no such row.
    pub fn row(&self, i: usize) -> Result<Option<Row>, AllocError>
        ensures { IfOk result (λ row. row ≡ slice_get self.now.rows i) }
    {
        let row = self.rows.row(*self.key.allocator(), i)?;
        Ok(row)
    }

    /// The order of row `i` and row `j` of another part with the same types, both counted from 0, by the key of this
    /// one.
    pub fn key_order(&self, i: usize, other: &PartData, j: usize) -> Ordering
        requires { other.now.kinds ≡ self.now.kinds }
        ensures { result ≡ key_cmp self.now.key (get_or self.now.rows i []) (get_or other.now.rows j []) }
    {
        self.rows.order(&self.key, i, &other.rows, j)
    }

    // The numbers of the key's first column, in the order of the rows; none where there is no such column or it has another
    // type.
    pub(crate) fn leading_numbers(&self) -> &[u64]
        ensures { Lead self.now.key self.now.rows result.now }
    {
        match self.rows.leading_numbers(&self.key) {
            Some(numbers) => numbers,
            None => &[],
        }
    }

    /// The rows of granule `g`, from the first to past the last, all counted from 0; `None` where there is no such
    /// granule.
    pub fn granule(&self, g: usize) -> Option<(usize, usize)>
        ensures { result ≡ granule_of self.now g }
    {
        if g >= self.marks.len() {
            return None;
        }
        let (count, size) = (self.rows.len(), self.granularity as usize);
        let first = g * size;
        let past = first + size.min(count - first);
        Some((first, past))
    }
}
