//! Block numbers and kept ids as znodes: what they say, and the operations that change them.
#![tactic(auto)]

mod drops;
mod kept_block;
mod kept_ids;
mod locks;
mod names;
mod number;
mod number_error;
mod ops;
mod window;

pub use drops::drop_ops;
pub use kept_ids::{keep_ops, kept};
pub use locks::in_flight;
pub use number::{next_number, number_ops, take_number};
pub use number_error::NumberError;
pub use window::Window;
