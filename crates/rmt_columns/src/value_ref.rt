ghost use Rattle.std.specs.Prelude.{◌≡◌, IfOk};
ghost use Rattle.rmt_values.specs.Rows.{kind_of, value_cmp};
ghost use Rattle.rmt_columns.specs.Columns.{value_of};

use rmt_values::{Blob, Kind, Value};
use std::alloc::{AllocError, Global};
use std::cmp::Ordering;

/// A value that lies in a column, or is to be put there.
#[derive(Clone, Copy, Debug)]
pub enum ValueRef<'a> {
    UInt(u64),
    Int(i64),
    Text(&'a [u8]),
}

impl<'a> ValueRef<'a> {
    /// A value that lies elsewhere.
    pub fn of(value: &'a Value) -> ValueRef<'a>
        ensures { value_of result ≡ value.now }
    {
        match value {
            Value::UInt(number) => ValueRef::UInt(*number),
            Value::Int(number) => ValueRef::Int(*number),
            Value::Text(text) => ValueRef::Text(text.as_bytes()),
        }
    }

    /// Its type.
    pub fn kind(&self) -> Kind
        ensures { result ≡ kind_of (value_of self.now) }
    {
        match self {
            ValueRef::UInt(_) => Kind::UInt64,
            ValueRef::Int(_) => Kind::Int64,
            ValueRef::Text(_) => Kind::Text,
        }
    }

    /// The order of this and of another value: numbers as numbers, Strings by their bytes. Values of different types are in
    /// the order of the types.
    pub fn compare(&self, other: &Value) -> Ordering
        ensures { result ≡ value_cmp (value_of self.now) other.now }
    {
        match (self, other) {
            (ValueRef::UInt(a), Value::UInt(b)) => a.cmp(b),
            (ValueRef::Int(a), Value::Int(b)) => a.cmp(b),
            (ValueRef::Text(a), Value::Text(b)) => a.cmp(b.as_bytes()),
            (ValueRef::UInt(_), _) => Ordering::Less,
            (_, Value::UInt(_)) => Ordering::Greater,
            (ValueRef::Int(_), _) => Ordering::Less,
            (_, Value::Int(_)) => Ordering::Greater,
        }
    }

    /// The order of two values that lie in columns: as `compare` says.
    pub fn order(self, other: ValueRef<'_>) -> Ordering
        ensures { result ≡ value_cmp (value_of self.entry) (value_of other.entry) }
    {
        match (self, other) {
            (ValueRef::UInt(a), ValueRef::UInt(b)) => a.cmp(&b),
            (ValueRef::Int(a), ValueRef::Int(b)) => a.cmp(&b),
            (ValueRef::Text(a), ValueRef::Text(b)) => a.cmp(b),
            (ValueRef::UInt(_), _) => Ordering::Less,
            (_, ValueRef::UInt(_)) => Ordering::Greater,
            (ValueRef::Int(_), _) => Ordering::Less,
            (_, ValueRef::Int(_)) => Ordering::Greater,
        }
    }

    /// A copy in memory of its own.
    pub fn to_value(&self, alloc: Global) -> Result<Value, AllocError>
        ensures { IfOk result (λ value. value ≡ value_of self.now) }
    {
        match self {
            ValueRef::UInt(number) => Ok(Value::UInt(*number)),
            ValueRef::Int(number) => Ok(Value::Int(*number)),
            ValueRef::Text(text) => Ok(Value::Text(Blob::new(Vec::from_slice(alloc, text)?))),
        }
    }
}
