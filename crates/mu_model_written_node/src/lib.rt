//! What one record makes of a node that a store represents, and of the node in memory beside it.
#![tactic(auto)]

pub mod laws;
