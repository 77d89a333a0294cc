ghost use Rattle.std.specs.Prelude.{◌≡◌, ◌↔◌, IsTrue, IfOk};
ghost use Rattle.rmt_values.specs.Rows.{value_cmp, kind_of, is_of as is_of_kind};

use crate::blob::Blob;
use crate::kind::Kind;
use rmt_list::Equals;
use std::alloc::AllocError;
use std::cmp::Ordering;

/// The longest String, in bytes.
pub const LONGEST_TEXT: usize = 65_535;

/// One value of a row.
#[derive(Debug, Drop)]
pub enum Value {
    UInt(u64),
    Int(i64),
    Text(Blob),
}

impl Value {
    /// Its type.
    pub fn kind(&self) -> Kind
        ensures { result ≡ kind_of self.now }
    {
        match self {
            Value::UInt(_) => Kind::UInt64,
            Value::Int(_) => Kind::Int64,
            Value::Text(_) => Kind::Text,
        }
    }

    /// Whether it is a value of this type: a String of more than 65,535 bytes is none.
    pub fn is_of(&self, kind: Kind) -> bool
        ensures { result ≡ is_of_kind kind self.now }
    {
        match (self, kind) {
            (Value::UInt(_), Kind::UInt64) | (Value::Int(_), Kind::Int64) => true,
            (Value::Text(text), Kind::Text) => text.as_bytes().len() <= LONGEST_TEXT,
            _ => false,
        }
    }

    /// The order of values: numbers as numbers, Strings by their bytes. Values of different types are in the
    /// order of the types.
    pub fn compare(&self, other: &Value) -> Ordering
        ensures { result ≡ value_cmp self.now other.now }
    {
        match (self, other) {
            (Value::UInt(a), Value::UInt(b)) => a.cmp(b),
            (Value::Int(a), Value::Int(b)) => a.cmp(b),
            (Value::Text(a), Value::Text(b)) => a.compare(b),
            (Value::UInt(_), _) => Ordering::Less,
            (_, Value::UInt(_)) => Ordering::Greater,
            (Value::Int(_), _) => Ordering::Less,
            (_, Value::Int(_)) => Ordering::Greater,
        }
    }

    /// Returns a copy.
    pub fn copy(&self) -> Result<Value, AllocError>
        ensures { IfOk result (λ other. other ≡ self.now) }
    {
        match self {
            Value::UInt(a) => Ok(Value::UInt(*a)),
            Value::Int(a) => Ok(Value::Int(*a)),
            Value::Text(a) => Ok(Value::Text(a.copy()?)),
        }
    }
}

impl Equals for Value {
    fn equals(&self, other: &Value) -> bool
        ensures fact { IsTrue result ↔ (self.now ≡ other.now) }
    {
        match (self, other) {
            (Value::UInt(a), Value::UInt(b)) => a == b,
            (Value::Int(a), Value::Int(b)) => a == b,
            (Value::Text(a), Value::Text(b)) => a.is(b),
            _ => false,
        }
    }
}
