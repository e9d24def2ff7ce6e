//! Laws over whole runs of scripts: that every world is safe.
#![tactic(auto)]

pub mod laws;
