/// A read or a write that failed. It moved no bytes, and the count of faults of its source or sink rose in the
/// same call. The call may be made again.
#[derive(Clone, Copy, Debug, PartialEq, Eq)]
pub struct Failed;
