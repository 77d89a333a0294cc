/// A row of one of several parts: the number of the part among them, and that of the row in it, both counted from 0.
#[derive(Clone, Copy, Debug)]
pub(crate) struct Place {
    pub part: usize,
    pub row: usize,
}
