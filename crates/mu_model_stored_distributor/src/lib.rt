//! What a distributor keeps, as a function of a store's state, and what the calls on a store make of it.
#![tactic(auto)]

pub mod laws;
