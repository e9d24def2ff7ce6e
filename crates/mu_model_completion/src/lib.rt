//! How many turns an update takes in which nothing is lost.
#![tactic(auto)]

pub mod laws;
