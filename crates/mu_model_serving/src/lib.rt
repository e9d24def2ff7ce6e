//! A node serves BLOB messages as a BLOB server by itself does, which knows its job's blocks and nothing of update phases.
#![tactic(auto)]

pub mod laws;
