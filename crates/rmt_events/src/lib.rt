//! What happens to a table at its replicas: the events that change them, and what always holds.
#![tactic(auto)]

mod applied;
mod event;
mod laws;
mod reply;
mod step_refused;

pub use applied::Applied;
pub use event::Event;
pub use laws::{
    a_cluster_stays_whole, a_note_keeps_a_table_sound, a_run_keeps_a_cluster_whole,
    drained_replica_covers_the_part_that_waits, drained_replica_has_the_live_parts,
    drained_replica_reads_plain_rows, every_event_keeps_a_cluster_whole, new_cluster_is_whole,
    replicas_drained_to_one_length_agree, waiting_get_finds_its_block,
    waiting_merge_finds_its_sources, what_was_noted_is_kept,
};
pub use reply::Reply;
pub use step_refused::StepRefused;
