/// How a SELECT reads.
#[derive(Clone, Copy, Debug)]
pub enum Mode {
    Plain,
    /// The replica is brought up to date first.
    Sync,
    /// With this number of `select_sequential_consistency`.
    Sequential(u128),
}
