/// A place in the work of a client or a worker at which a [`Gate`] may hold it.
#[derive(Clone, Copy, Debug, PartialEq, Eq)]
pub enum Point {
    /// A part was built for the entry at this place of the log, and isn't installed yet.
    BeforeCommit { table: u8, replica: u8, entry: u32 },
    /// The active parts were taken note of, and aren't read yet.
    AfterSnapshot { table: u8, replica: u8 },
    /// The reply of a statement was written. Statements are counted from 0.
    Answered { statement: u32 },
}

/// Holds whoever comes to a point, for as long as it likes. No lock is held there.
pub trait Gate {
    /// Lets the caller pass the point, at once or later.
    fn pass(&self, point: Point);
}

/// The gate that lets all pass at once.
#[derive(Clone, Copy, Debug, PartialEq, Eq)]
pub struct Open;

impl Gate for Open {
    fn pass(&self, _point: Point) {}
}
