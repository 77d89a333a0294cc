//! What a client knows of a table that workers change beside it, and why its steps are those of the statements.
#![tactic(auto)]
