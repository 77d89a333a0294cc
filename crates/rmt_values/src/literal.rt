ghost use Rattle.std.specs.Prelude.{◌≡◌, ◌↔◌, IsTrue, IfOk, IfSome, true};
ghost use Rattle.rmt_values.specs.Rows.{kind_of, is_value};
ghost use Rattle.rmt_values.specs.Literals.{
  number_value as number_value_of,
  text_value as text_value_of,
  literal_value,
};

use crate::blob::Blob;
use crate::kind::Kind;
use crate::value::{LONGEST_TEXT, Value};
use rmt_list::Equals;
use std::alloc::{AllocError, Global};

/// The most digits of a number.
pub const MOST_DIGITS: usize = 39;

/// A value as a statement writes it.
#[derive(Debug, Drop)]
pub enum Literal {
    /// A number: whether a minus precedes it, and its digits' value.
    Number { minus: bool, size: u128 },
    Text(Blob),
}

impl Literal {
    /// Its value in a column of this type, if it has one there. At an error no memory was left.
    pub fn value_in(&self, alloc: Global, kind: Kind) -> Result<Option<Value>, AllocError>
        ensures ok { IfOk result (λ o. o ≡ literal_value kind self.now) }
        ensures typed { IfOk result (λ o. IfSome o (λ v. (kind_of v ≡ kind) × (is_value v ≡ true))) }
    {
        match self {
            Literal::Number { minus, size } => Ok(number_value(kind, *minus, *size)),
            Literal::Text(text) => text_value(alloc, kind, text.as_bytes()),
        }
    }
}

/// The value of a number in a column of this type, if it has one there. A number with a minus, -0 too, has none in a
/// column of UInt64.
pub fn number_value(kind: Kind, minus: bool, size: u128) -> Option<Value>
    ensures ok { result ≡ number_value_of kind minus size }
    ensures typed { IfSome result (λ v. (kind_of v ≡ kind) × (is_value v ≡ true)) }
{
    match (kind, minus) {
        (Kind::UInt64, false) => {
            if size < 1 << 64 {
                Some(Value::UInt(size as u64))
            } else {
                None
            }
        }
        (Kind::Int64, false) => {
            if size < 1 << 63 {
                Some(Value::Int(size as i64))
            } else {
                None
            }
        }
        (Kind::Int64, true) => {
            if size <= 1 << 63 {
                Some(Value::Int((0 - size as i128) as i64))
            } else {
                None
            }
        }
        _ => None,
    }
}

/// The value of some bytes in a column of this type, if they have one there. At an error no memory was left.
pub fn text_value(alloc: Global, kind: Kind, bytes: &[u8]) -> Result<Option<Value>, AllocError>
    ensures ok { IfOk result (λ o. o ≡ text_value_of kind bytes.now) }
    ensures typed { IfOk result (λ o. IfSome o (λ v. (kind_of v ≡ kind) × (is_value v ≡ true))) }
{
    match kind {
        Kind::Text => {
            if bytes.len() <= LONGEST_TEXT {
                let bytes = Vec::from_slice(alloc, bytes)?;
                Ok(Some(Value::Text(Blob::new(bytes))))
            } else {
                Ok(None)
            }
        }
        _ => Ok(None),
    }
}

impl Equals for Literal {
    fn equals(&self, other: &Literal) -> bool
        ensures fact { IsTrue result ↔ (self.now ≡ other.now) }
    {
        match (self, other) {
            (
                Literal::Number { minus, size },
                Literal::Number {
                    minus: other_minus,
                    size: other_size,
                },
            ) => minus == other_minus && size == other_size,
            (Literal::Text(text), Literal::Text(other_text)) => text.is(other_text),
            _ => false,
        }
    }
}
