//! That what a member of a script offers under its BLOB ID is an image that it has or had, and that a node's new active image is that one.
#![tactic(auto)]

pub mod laws;
