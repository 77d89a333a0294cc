//! Parts as bytes, both ways, and their digests.
#![tactic(auto)]

mod cells;
mod decode_error;
mod decoded;
mod digest;
mod granules;
mod head;
mod laws;
mod part_bytes;
mod rows;

pub use decode_error::DecodeError;
pub use decoded::decode;
pub use digest::digest_of;
pub use laws::one_spelling;
pub use part_bytes::encode;
