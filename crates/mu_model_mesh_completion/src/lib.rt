//! Updates in which nothing is lost, as a script's line `settle` carries them out.
#![tactic(auto)]

pub mod laws;
