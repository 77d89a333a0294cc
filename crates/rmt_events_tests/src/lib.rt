//! Tests of the definitions of events: lists of events worked out by hand, and cases that are no step.
#![tactic(auto)]

mod excluded;
mod worked;

pub use excluded::{
    a_dropped_part_is_not_installed, a_get_has_its_block, a_kept_block_is_not_committed,
    a_lock_keeps_a_merge_out, a_note_is_of_a_covering_part, a_part_past_the_copy_is_not_fetched,
    a_part_that_waits_keeps_a_merge_out, a_quorum_is_met_by_replicas,
};
pub use worked::{
    a_drop_overtakes_an_insert, a_merge_over_a_lock_is_refused,
    a_replica_is_killed_between_every_two_events, these_are_the_first_draws,
};
