/// A run of live names: the place of its first, how many it has, and its greatest level.
#[derive(Clone, Copy, Debug)]
pub(crate) struct Run {
    pub first: usize,
    pub count: usize,
    pub top: u32,
}
