use rmt_cluster::Cluster;
use rmt_list::List;
use rmt_state::State;

/// What was played, as it is at the end.
#[derive(Drop)]
pub enum End {
    /// Nothing is handed back.
    Nothing,
    /// The clusters of the tables, in the order in which they were created.
    Stepped(List<Cluster>),
    /// The tables that were played among workers, each with its replicas, in that order.
    Threaded(List<State>),
}
