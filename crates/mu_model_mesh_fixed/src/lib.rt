//! That the lines of a script and the text that is written for them fix its whole run, with nodes, updaters and distributors.
#![tactic(auto)]

pub mod laws;
