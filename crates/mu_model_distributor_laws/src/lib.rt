//! What holds of every distributor, proved of its definitions, and worked rows.
#![tactic(auto)]

pub mod laws;
