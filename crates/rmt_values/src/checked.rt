ghost use Rattle.std.specs.Prelude.{◌≡◌, ◌↔◌, IsTrue, IfOk};

use crate::cmp::Cmp;
use crate::value::Value;
use rmt_list::{Boxed, Equals};
use std::alloc::{AllocError, Global};

/// A filter over the columns of a schema, with places in place of names and values in place of literals.
#[derive(Debug, Drop)]
pub enum Checked {
    /// The column at this place, counted from 0, compared with a value.
    Test { column: u16, cmp: Cmp, value: Value },
    Both(Boxed<Checked>, Boxed<Checked>),
    Either(Boxed<Checked>, Boxed<Checked>),
    Not(Boxed<Checked>),
}

impl Checked {
    /// Returns a copy.
    pub fn copy(&self, alloc: Global) -> Result<Checked, AllocError>
        ensures { IfOk result (λ other. other ≡ self.now) }
    {
        match self {
            Checked::Test { column, cmp, value } => Ok(Checked::Test {
                column: *column,
                cmp: *cmp,
                value: value.copy()?,
            }),
            Checked::Both(first, second) => {
                let (first, second) = (first.get().copy(alloc)?, second.get().copy(alloc)?);
                Ok(Checked::Both(Boxed::new(alloc, first)?, Boxed::new(alloc, second)?))
            }
            Checked::Either(first, second) => {
                let (first, second) = (first.get().copy(alloc)?, second.get().copy(alloc)?);
                Ok(Checked::Either(Boxed::new(alloc, first)?, Boxed::new(alloc, second)?))
            }
            Checked::Not(filter) => {
                let filter = filter.get().copy(alloc)?;
                Ok(Checked::Not(Boxed::new(alloc, filter)?))
            }
        }
    }
}

impl Equals for Checked {
    fn equals(&self, other: &Checked) -> bool
        ensures fact { IsTrue result ↔ (self.now ≡ other.now) }
    {
        match (self, other) {
            (
                Checked::Test { column, cmp, value },
                Checked::Test {
                    column: other_column,
                    cmp: other_cmp,
                    value: other_value,
                },
            ) => column == other_column && cmp == other_cmp && value.equals(other_value),
            (Checked::Both(f, g), Checked::Both(other_f, other_g))
            | (Checked::Either(f, g), Checked::Either(other_f, other_g)) => {
                f.get().equals(other_f.get()) && g.get().equals(other_g.get())
            }
            (Checked::Not(f), Checked::Not(other_f)) => f.get().equals(other_f.get()),
            _ => false,
        }
    }
}
