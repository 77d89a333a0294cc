/// A setting of CREATE.
#[derive(Clone, Copy, Debug, PartialEq, Eq)]
pub(crate) enum SettingName {
    /// `index_granularity`.
    Granularity,
    /// `replicated_deduplication_window`.
    Window,
}
