//! The rules by which a distributor answers each request, in their order, and that the first one that holds answers it.
#![tactic(auto)]

pub mod laws;
