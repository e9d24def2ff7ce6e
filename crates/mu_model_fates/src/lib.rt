//! What the log of one node says over its whole run: what was taken, how versions rise, and what became of each job.
#![tactic(auto)]

pub mod laws;
