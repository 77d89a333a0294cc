//! What statements reply and change in one table, and why the events that play them do so.
#![tactic(auto)]
