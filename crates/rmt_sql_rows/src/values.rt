//! Fields of data as values of columns.
ghost use Rattle.std.specs.Prelude.{◌≡◌, ◌≤◌, ◌+◌, ◌-◌, ◌*◌, ◌&&◌, true, nat_le, nat_lt, length, IfSome};
ghost use Rattle.std.specs.List.{prefix_len};
ghost use Rattle.std.specs.Char.{is_ascii_digit};
ghost use Rattle.std.specs.Option.{option_map};
ghost use Rattle.rmt_values.specs.Literals.{number_value as number_value_of, text_value as text_value_of};
ghost use Rattle.rmt_columns.specs.Columns.{value_of};
ghost use Rattle.rmt_sql_tokens.specs.Tokens.{value_of as decimal_of};
ghost use Rattle.rmt_sql_rows.specs.InsertedRows.{is_number as number_test, digits_value as digits_value_of, numeral_value as numeral_value_of, field_value as field_value_of, absent as absent_of};

use rmt_columns::ValueRef;
use rmt_sql_tokens::{decimal_value, digits_len};
use rmt_values::{Kind, LONGEST_TEXT, MOST_DIGITS, Value, number_value};

/// The most digits whose number 64 bits hold, whichever digits they are.
const SHORT_DIGITS: usize = 19;

/// Whether a number may have so many digits: 1 to 39.
fn is_number_len(len: usize) -> bool
    ensures { result ≡ nat_lt 0 len && nat_le len 39 }
{
    0 < len && len <= MOST_DIGITS
}

/// Whether these bytes are 1 to 39 digits.
fn is_number(bytes: &[u8]) -> bool
    ensures { result ≡ number_test bytes.now }
{
    is_number_len(bytes.len()) && digits_len(bytes) == bytes.len()
}

/// The value of a number in a column of this type, if it has one there.
pub fn number_ref<'a>(kind: Kind, minus: bool, size: u128) -> Option<ValueRef<'a>>
    ensures { option_map value_of result ≡ number_value_of kind minus size }
{
    match number_value(kind, minus, size) {
        Some(Value::UInt(number)) => Some(ValueRef::UInt(number)),
        Some(Value::Int(number)) => Some(ValueRef::Int(number)),
        Some(Value::Text(_)) | None => None,
    }
}

/// The value of some bytes in a column of this type, if they have one there.
pub fn text_ref(kind: Kind, bytes: &[u8]) -> Option<ValueRef<'_>>
    ensures { option_map value_of result ≡ text_value_of kind bytes.now }
{
    match kind {
        Kind::Text => {
            if bytes.len() <= LONGEST_TEXT {
                Some(ValueRef::Text(bytes))
            } else {
                None
            }
        }
        _ => None,
    }
}

/// The value of 1 to 20 digits where it is below 2^64; none elsewhere. It passes over the bytes once, and counts in 64 bits:
/// nearly all numbers are so short.
fn short_number(bytes: &[u8]) -> Option<u64>
    ensures { IfSome result (λ size. (number_test bytes.now ≡ true) × (size ≡ decimal_of bytes.now)) }
{
    let (last, first) = bytes.split_last()?;
    if first.len() > SHORT_DIGITS {
        return None;
    }
    with_digit(few_digits(first)?, *last)
}

/// The number of at most 19 digits, 0 where there are none; none where one of the bytes is no digit.
fn few_digits(bytes: &[u8]) -> Option<u64>
    requires { length bytes.now ≤ 19 }
    ensures { IfSome result (λ size. (prefix_len is_ascii_digit bytes.now ≡ length bytes.now) × (size ≡ decimal_of bytes.now)) }
{
    let mut size: u64 = 0;
    'digits: for byte in bytes {
        if !byte.is_ascii_digit() {
            return None;
        }
        size = size * 10 + u64::from(*byte - b'0');
    }
    Some(size)
}

/// The number with one digit more, where it is a digit and the number is below 2^64.
fn with_digit(size: u64, byte: u8) -> Option<u64>
    ensures { IfSome result (λ more. (is_ascii_digit byte ≡ true) × (more ≡ size * 10 + (byte - 48))) }
{
    if !byte.is_ascii_digit() {
        return None;
    }
    match size.checked_mul(10) {
        Some(tens) => tens.checked_add(u64::from(byte - b'0')),
        None => None,
    }
}

/// The value of digits in a column of this type, if they have one there.
fn digits_value<'a>(kind: Kind, minus: bool, digits: &[u8]) -> Option<ValueRef<'a>>
    ensures { option_map value_of result ≡ digits_value_of kind minus digits.now }
{
    match short_number(digits) {
        Some(size) => number_ref(kind, minus, u128::from(size)),
        None => long_value(kind, minus, digits),
    }
}

/// What `digits_value` says, for digits of any length.
fn long_value<'a>(kind: Kind, minus: bool, digits: &[u8]) -> Option<ValueRef<'a>>
    ensures { option_map value_of result ≡ digits_value_of kind minus digits.now }
{
    if !is_number(digits) {
        return None;
    }
    match decimal_value(digits) {
        Some(size) => number_ref(kind, minus, size),
        None => None,
    }
}

/// The value of a number with or without a minus in a column of this type, if it has one there.
fn numeral_value<'a>(kind: Kind, bytes: &[u8]) -> Option<ValueRef<'a>>
    ensures { option_map value_of result ≡ numeral_value_of kind bytes.now }
{
    match bytes {
        [] => None,
        [b'-', digits @ ..] => digits_value(kind, true, digits),
        _ => digits_value(kind, false, bytes),
    }
}

/// The value of a field of data in a column of this type, if it has one there.
pub fn field_value(kind: Kind, bytes: &[u8]) -> Option<ValueRef<'_>>
    ensures { option_map value_of result ≡ field_value_of kind bytes.now }
{
    match kind {
        Kind::Text => text_ref(Kind::Text, bytes),
        Kind::UInt64 => numeral_value(Kind::UInt64, bytes),
        Kind::Int64 => numeral_value(Kind::Int64, bytes),
    }
}

/// The value of a column that is left out.
pub fn absent<'a>(kind: Kind) -> ValueRef<'a>
    ensures { value_of result ≡ absent_of kind }
{
    match kind {
        Kind::UInt64 => ValueRef::UInt(0),
        Kind::Int64 => ValueRef::Int(0),
        Kind::Text => ValueRef::Text(b""),
    }
}
