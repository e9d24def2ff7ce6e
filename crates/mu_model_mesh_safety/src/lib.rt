//! Laws over whole runs of scripts with nodes, updaters and distributors: that every world is safe, and that every Receivers List
//! in the bag is true.
#![tactic(auto)]

pub mod laws;
