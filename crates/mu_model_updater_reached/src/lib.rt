//! What an updater's rows show of a node was reached by the node.
#![tactic(auto)]

pub mod laws;
