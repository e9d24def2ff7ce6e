//! What members send on a packet, and that it is answered by nothing.
#![tactic(auto)]

pub mod laws;
