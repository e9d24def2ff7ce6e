//! When the octets of a flash represent what a node keeps, and what any record keeps of a job: definitions, and laws about them.
#![tactic(auto)]

pub mod laws;
