/// What an entry came to at a replica that looked at it.
#[derive(Clone, Copy, Debug, PartialEq, Eq)]
pub enum Applied {
    /// Nothing was to do.
    Already,
    /// A later drop takes away what it makes.
    Dropped,
    /// It was done.
    Installed,
}
