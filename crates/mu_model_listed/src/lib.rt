//! What a distributor shows of a node, in its rows and its lists, was reached by the node.
#![tactic(auto)]

pub mod laws;
