//! What members of a script send is in the ranges that every member expects.
#![tactic(auto)]

pub mod laws;
