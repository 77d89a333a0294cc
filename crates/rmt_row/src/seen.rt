ghost use Rattle.std.specs.Prelude.{◌≡◌, IfOk};
ghost use Rattle.std.specs.Arc.{arc_value};

use crate::shown::Shown;
use std::alloc::{AllocError, Global};
use std::marker::Model;
use std::sync::Arc;

/// A token of what a cell of a row holds. Contracts see the cell's place, its value and its name.
#[derive(Drop)]
pub struct Seen<T: Drop> {
    place: usize,
    value: Arc<T, Global>,
    shown: Shown<Arc<T, Global>>,
}

impl<T: Drop> Model for Seen<T> {
    ghost use Rattle.rmt_row.specs.Token.{Token};
    ghost use Rattle.std.specs.Prelude.{◌≡◌};

    ghost Value = { Token T };

    ghost use Rattle.std.specs.Arc.{arc_value};

    ghost view = { λ s. record { place = s.place; value = arc_value s.value; cell = s.shown.cell } };

    ghost invariant = { λ s. arc_value s.shown.value ≡ arc_value s.value };
}

impl<T: Drop> Seen<T> {
    pub(crate) fn new(place: usize, value: Arc<T, Global>, shown: Shown<Arc<T, Global>>) -> Seen<T>
        requires { arc_value shown.value ≡ arc_value value }
        ensures { result ≡ record { place = place; value = arc_value value; cell = shown.cell } }
    {
        Seen {
            place,
            value,
            shown,
        }
    }

    /// A token of the same cell, with another reference to its value.
    pub(crate) fn again(&self, value: Arc<T, Global>) -> Seen<T>
        requires { arc_value value ≡ self.now.value }
        ensures { result ≡ self.now }
    {
        Seen {
            place: self.place,
            value,
            shown: self.shown.again(),
        }
    }

    /// The cell's place, counted from 0.
    pub fn place(&self) -> usize
        ensures { result ≡ self.now.place }
    {
        self.place
    }

    /// What the cell holds.
    pub fn value(&self) -> &T
        ensures { result.now ≡ self.now.value }
    {
        &self.value
    }

    /// Returns a copy. It shares the value.
    pub fn copy(&self) -> Result<Seen<T>, AllocError>
        ensures { IfOk result (λ other. other ≡ self.now) }
    {
        let value = Arc::try_clone(&self.value)?;
        Ok(self.again(value))
    }
}

/// Two tokens of one cell hold one value.
pub fn agree<T: Drop>(a: &Seen<T>, b: &Seen<T>)
    requires { a.now.cell ≡ b.now.cell }
    ensures { a.now.value ≡ b.now.value }
{
    a.shown.agrees(&b.shown);
}
