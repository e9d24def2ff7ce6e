//! What a world of members is, what each line of a script makes of it, and what a run of a script writes.
#![tactic(auto)]

pub mod laws;
