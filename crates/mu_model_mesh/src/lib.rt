//! The world of a script with nodes, updaters and distributors: what its lines say, what stands against them, what comes of them,
//! and whole runs (this profile).
#![tactic(auto)]

pub mod laws;
