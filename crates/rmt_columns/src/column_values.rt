ghost use Rattle.std.specs.Prelude.{◌≡◌, [], ◌∷◌, ◌++◌, ℕ, map, length, slice_get, IfOk, IfSome, OnOk, OnErr};
ghost use Rattle.std.specs.Option.{option_map};
ghost use Rattle.std.specs.declared.option.Option.TheVariants.{None};
ghost use Rattle.rmt_values.specs.declared.kind.Kind.TheVariants.{UInt64};
ghost use Rattle.rmt_values.specs.declared.value.Value.TheVariants.{UInt};
ghost use Rattle.rmt_values.specs.Rows.{AllBelow, kind_of, cell_cmp};
ghost use Rattle.rmt_columns.specs.Columns.{value_of};
ghost use Rattle.rmt_columns.specs.Places.{at_places};
ghost use Rattle.rmt_columns.specs.RowsByColumn.{AreOfKind};

use crate::texts::Texts;
use crate::value_ref::ValueRef;
use rmt_values::Kind;
use std::alloc::{AllocError, Global};
use std::cmp::Ordering;
use std::marker::Model;

/// The values of one column, a value for each row, in the order of the rows. Contracts see it as a `ColumnView`. A number
/// takes 8 bytes, a String 8 bytes and its own.
#[derive(Debug, Drop)]
pub struct ColumnValues {
    stored: Stored,
}

/// The values, each kind in vectors of its own.
#[derive(Debug, Drop)]
enum Stored {
    Unsigned(Vec<u64>),
    Signed(Vec<i64>),
    Texts(Texts),
}

impl Model for ColumnValues {
    ghost use Rattle.rmt_columns.specs.Columns.{ColumnView};
    ghost use Rattle.rmt_columns.specs.Stored.{values_of, kind_of_stored};

    ghost Value = { ColumnView };

    ghost view = { λ c. record { kind = kind_of_stored c.stored; values = values_of c.stored } };
}

impl ColumnValues {
    /// Makes a column of a type that has no values yet, and has room for so many; of Strings for so many bytes in all.
    pub fn with_capacity(
        alloc: Global,
        kind: Kind,
        capacity: usize,
        bytes: usize,
    ) -> Result<ColumnValues, AllocError>
        ensures { IfOk result (λ column. column ≡ record { kind = kind; values = [] }) }
    {
        let stored = match kind {
            Kind::UInt64 => Stored::Unsigned(Vec::with_capacity(alloc, capacity)?),
            Kind::Int64 => Stored::Signed(Vec::with_capacity(alloc, capacity)?),
            Kind::Text => Stored::Texts(Texts::with_capacity(alloc, capacity, bytes)?),
        };
        Ok(ColumnValues { stored })
    }

    /// The type of the column.
    pub fn kind(&self) -> Kind
        ensures { result ≡ self.now.kind }
    {
        match &self.stored {
            Stored::Unsigned(_) => Kind::UInt64,
            Stored::Signed(_) => Kind::Int64,
            Stored::Texts(_) => Kind::Text,
        }
    }

    /// How many values there are.
    pub fn len(&self) -> usize
        ensures count { result ≡ length self.now.values }
        ensures typed { AreOfKind self.now.kind self.now.values }
    {
        match &self.stored {
            Stored::Unsigned(all) => all.len(),
            Stored::Signed(all) => all.len(),
            Stored::Texts(all) => all.len(),
        }
    }

    /// The numbers of a column of UInt64, in the order of the rows; none where the column has another type.
    pub fn unsigned(&self) -> Option<&[u64]>
        ensures some { IfSome result (λ numbers. self.now.values ≡ map (λ n. UInt n) numbers.now) }
        ensures none { result ≡ None → self.now.kind ≡ UInt64 → ⊥ }
    {
        match &self.stored {
            Stored::Unsigned(all) => Some(all),
            Stored::Signed(_) | Stored::Texts(_) => None,
        }
    }

    /// The value of row `i`, counted from 0, where there is one.
    pub fn get(&self, i: usize) -> Option<ValueRef<'_>>
        ensures { option_map value_of result ≡ slice_get self.now.values i }
    {
        match &self.stored {
            Stored::Unsigned(all) => match all.get(i) {
                Some(number) => Some(ValueRef::UInt(*number)),
                None => None,
            },
            Stored::Signed(all) => match all.get(i) {
                Some(number) => Some(ValueRef::Int(*number)),
                None => None,
            },
            Stored::Texts(all) => match all.get(i) {
                Some(text) => Some(ValueRef::Text(text)),
                None => None,
            },
        }
    }

    /// The order of value `i` and of value `j` of another column of this type, both counted from 0. One that is missing
    /// comes first.
    pub fn order(&self, i: usize, other: &ColumnValues, j: usize) -> Ordering
        requires { other.now.kind ≡ self.now.kind }
        ensures { result ≡ cell_cmp (slice_get self.now.values i) (slice_get other.now.values j) }
    {
        match (&self.stored, &other.stored) {
            (Stored::Unsigned(left), Stored::Unsigned(right)) => match (left.get(i), right.get(j)) {
                (Some(a), Some(b)) => a.cmp(b),
                (Some(_), None) => Ordering::Greater,
                (None, Some(_)) => Ordering::Less,
                (None, None) => Ordering::Equal,
            },
            (Stored::Signed(left), Stored::Signed(right)) => match (left.get(i), right.get(j)) {
                (Some(a), Some(b)) => a.cmp(b),
                (Some(_), None) => Ordering::Greater,
                (None, Some(_)) => Ordering::Less,
                (None, None) => Ordering::Equal,
            },
            (Stored::Texts(left), Stored::Texts(right)) => match (left.get(i), right.get(j)) {
                (Some(a), Some(b)) => a.cmp(b),
                (Some(_), None) => Ordering::Greater,
                (None, Some(_)) => Ordering::Less,
                (None, None) => Ordering::Equal,
            },
            _ => unreachable!(),
        }
    }

    /// Puts a value of the column's type at the end.
    pub fn push(&mut self, value: ValueRef<'_>) -> Result<(), AllocError>
        requires { kind_of (value_of value) ≡ self.old.kind }
        ensures ok { OnOk result (self.new ≡ record self.old { values = self.old.values ++ value_of value.entry ∷ [] }) }
        ensures err { OnErr result (self.new ≡ self.old) }
    {
        match (&mut self.stored, value) {
            (Stored::Unsigned(all), ValueRef::UInt(number)) => {
                all.push(number)?;
                Ok(())
            }
            (Stored::Signed(all), ValueRef::Int(number)) => {
                all.push(number)?;
                Ok(())
            }
            (Stored::Texts(all), ValueRef::Text(text)) => {
                all.push(text)?;
                Ok(())
            }
            _ => unreachable!(),
        }
    }

    /// Returns a copy.
    pub fn copy(&self) -> Result<ColumnValues, AllocError>
        ensures { IfOk result (λ column. column ≡ self.now) }
    {
        match &self.stored {
            Stored::Unsigned(all) => {
                let stored = Stored::Unsigned(all.clone()?);
                Ok(ColumnValues { stored })
            }
            Stored::Signed(all) => {
                let stored = Stored::Signed(all.clone()?);
                Ok(ColumnValues { stored })
            }
            Stored::Texts(all) => {
                let stored = Stored::Texts(all.copy()?);
                Ok(ColumnValues { stored })
            }
        }
    }

    /// The values at these places, counted from 0, in the order of the places.
    pub fn gather(&self, alloc: Global, places: &[usize]) -> Result<ColumnValues, AllocError>
        requires { AllBelow (length self.now.values) places.now }
        ensures { IfOk result (λ column. column ≡ record self.now { values = at_places self.now.values places.now }) }
    {
        match &self.stored {
            Stored::Unsigned(all) => {
                let stored = Stored::Unsigned(gathered(alloc, all, places)?);
                Ok(ColumnValues { stored })
            }
            Stored::Signed(all) => {
                let stored = Stored::Signed(gathered(alloc, all, places)?);
                Ok(ColumnValues { stored })
            }
            Stored::Texts(all) => {
                let stored = Stored::Texts(all.gather(alloc, places)?);
                Ok(ColumnValues { stored })
            }
        }
    }
}

/// The elements at these places.
fn gathered<T: Copy>(alloc: Global, all: &[T], places: &[usize]) -> Result<Vec<T>, AllocError>
    requires { AllBelow (length all.now) places.now }
    ensures { IfOk result (λ some. some.items ≡ at_places all.now places.now) }
{
    let mut some = Vec::with_capacity(alloc, places.len())?;
    'places: for place in places {
        some.push(all[*place])?;
    }
    Ok(some)
}
