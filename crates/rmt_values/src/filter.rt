ghost use Rattle.std.specs.Prelude.{◌≡◌, ◌↔◌, IsTrue};

use crate::cmp::Cmp;
use crate::literal::Literal;
use crate::name::Name;
use rmt_list::{Boxed, Equals};

/// A filter as a statement writes it.
#[derive(Debug, Drop)]
pub enum Filter {
    /// A column, compared with a literal.
    Test {
        column: Name,
        cmp: Cmp,
        literal: Literal,
    },
    Both(Boxed<Filter>, Boxed<Filter>),
    Either(Boxed<Filter>, Boxed<Filter>),
    Not(Boxed<Filter>),
}

impl Equals for Filter {
    fn equals(&self, other: &Filter) -> bool
        ensures fact { IsTrue result ↔ (self.now ≡ other.now) }
    {
        match (self, other) {
            (
                Filter::Test {
                    column,
                    cmp,
                    literal,
                },
                Filter::Test {
                    column: other_column,
                    cmp: other_cmp,
                    literal: other_literal,
                },
            ) => column.equals(other_column) && cmp == other_cmp && literal.equals(other_literal),
            (Filter::Both(f, g), Filter::Both(other_f, other_g))
            | (Filter::Either(f, g), Filter::Either(other_f, other_g)) => {
                f.get().equals(other_f.get()) && g.get().equals(other_g.get())
            }
            (Filter::Not(f), Filter::Not(other_f)) => f.get().equals(other_f.get()),
            _ => false,
        }
    }
}
