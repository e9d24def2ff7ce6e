//! What holds of every client, proved of its definitions, and worked rows.
#![tactic(auto)]

pub mod laws;
