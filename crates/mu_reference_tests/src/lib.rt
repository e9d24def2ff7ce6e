//! The node in memory over octets, as tests.
#![tactic(auto)]

#[cfg(test)]
mod reference_node_tests;
