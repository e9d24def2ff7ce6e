//! Runs of typed states that hand their flash on, one after the other.
#![tactic(auto)]

pub mod laws;
