use crate::seen::Seen;
use std::alloc::Global;
use std::sync::Arc;

/// Why a value isn't in a cell.
#[derive(Drop)]
pub enum PutError<T: Drop> {
    /// The cell holds another value, of which this is the token.
    Taken(Seen<T>),
    /// Out of memory. The value comes back.
    Memory(Arc<T, Global>),
}
