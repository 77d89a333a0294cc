/// The settings of a CREATE, as far as they are set.
#[derive(Clone, Copy, Debug)]
pub struct Settings {
    /// The number of `index_granularity`.
    pub granularity: Option<u128>,
    /// The number of `replicated_deduplication_window`.
    pub window: Option<u128>,
}
