//! A node as it stands in memory beside its flash, whatever that tells: what its model state is, and what a record makes of it.
#![tactic(auto)]

pub mod laws;
