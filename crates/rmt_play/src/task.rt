/// What a command does.
#[derive(Clone, Copy, Debug, PartialEq, Eq)]
pub(crate) enum Task {
    /// Plays the script that the source gives, and writes each reply.
    Play,
    /// Plays a workload of so many turns that a generator draws from a seed, and writes the summary of its replies.
    Storm { seed: u32, turns: u32 },
}
