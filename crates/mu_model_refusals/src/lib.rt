//! What a refusal of octets says of them: its reason and its place.
#![tactic(auto)]

pub mod laws;
