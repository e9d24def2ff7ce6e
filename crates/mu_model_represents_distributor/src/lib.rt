//! When the octets of a flash represent what a distributor keeps: definitions, and laws about them.
#![tactic(auto)]

pub mod laws;
