//! A script that meets every premise of what is promised of a line `settle`.
#![tactic(auto)]

pub mod laws;
