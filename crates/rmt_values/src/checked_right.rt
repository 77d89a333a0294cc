ghost use Rattle.std.specs.Prelude.{◌≡◌, ◌↔◌, IsTrue};

use crate::value::Value;
use rmt_list::Equals;

/// What an UPDATE sets a column to. Columns are places, counted from 0.
#[derive(Debug, Drop)]
pub enum CheckedRight {
    Literal(Value),
    Column(u16),
    Plus { column: u16, by: Value },
    Minus { column: u16, by: Value },
}

impl Equals for CheckedRight {
    fn equals(&self, other: &CheckedRight) -> bool
        ensures fact { IsTrue result ↔ (self.now ≡ other.now) }
    {
        match (self, other) {
            (CheckedRight::Literal(value), CheckedRight::Literal(other_value)) => value.equals(
                other_value,
            ),
            (CheckedRight::Column(column), CheckedRight::Column(other_column)) => column
                == other_column,
            (
                CheckedRight::Plus { column, by },
                CheckedRight::Plus {
                    column: other_column,
                    by: other_by,
                },
            )
            | (
                CheckedRight::Minus { column, by },
                CheckedRight::Minus {
                    column: other_column,
                    by: other_by,
                },
            ) => column == other_column && by.equals(other_by),
            _ => false,
        }
    }
}
