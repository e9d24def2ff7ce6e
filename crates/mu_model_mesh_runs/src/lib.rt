//! How whole scripts with nodes, updaters and distributors run: the ways in which a script ends and the world that it ends in, what
//! a `settle` goes through, which lines would wear out a flash or pass a limit, and the flash operations that each line begins.
#![tactic(auto)]

pub mod laws;
