use rmt_cluster::Cluster;
use rmt_list::List;

/// How a script came to its end.
#[derive(Drop)]
pub(crate) enum ScriptEnd {
    /// All of it was played, with so many statements refused; these are its tables.
    Whole {
        refused: u64,
        clusters: List<Cluster>,
    },
    /// A reply couldn't be written.
    WriteFault,
    /// Out of memory.
    Memory,
}
