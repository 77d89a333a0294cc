use crate::act::Act;
use rmt_values::Name;

/// An act and the replica that it is sent to; the first one, where none is named.
#[derive(Drop)]
pub struct Sent {
    pub replica: Option<Name>,
    pub act: Act,
}
