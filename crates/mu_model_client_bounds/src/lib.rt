//! That the numbers and sets which a client keeps are bounded, whatever comes.
#![tactic(auto)]

pub mod laws;
