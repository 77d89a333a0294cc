//! The laws of lawful logs: what is true of every log that a table can have. Each is a function that does nothing, and
//! whose clause is the law.
#![tactic(auto)]

mod laws;

pub use laws::{
    a_quorum_follows_its_log, blocks_live_once, content_stays, covers_none_but_itself, fair_live,
    later_covers, pending_above, reads_plain_rows,
};
