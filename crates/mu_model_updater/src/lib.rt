//! An updater of a script: a client of one update, as a member of a script's world, and what holds of every one.
#![tactic(auto)]

pub mod laws;
