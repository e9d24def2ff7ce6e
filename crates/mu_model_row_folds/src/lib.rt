//! That the rows of an updater and of a distributor are, over whole runs, the fold of what counted for them.
#![tactic(auto)]

pub mod laws;
