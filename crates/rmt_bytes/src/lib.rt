//! Numbers, types, values and Strings as bytes, both ways.
#![tactic(auto)]

mod decode_error;
mod numbers;
mod partition;
mod text;
mod value;

pub use decode_error::DecodeError;
pub use numbers::{
    put_i64, put_len, put_u16, put_u32, put_u64, read_byte, read_i64, read_u16, read_u32, read_u64,
};
pub use partition::{put_partition, read_partition};
pub use text::{put_text, read_text};
pub use value::{kind_byte, put_kind, put_typed, put_value, read_kind, read_typed, read_value};
