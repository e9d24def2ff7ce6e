//! What each call on a store makes of the job that its record says, and that its state stays one that a store can be in.
#![tactic(auto)]

pub mod laws;
