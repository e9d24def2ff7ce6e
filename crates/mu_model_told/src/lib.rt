//! What a node tells, read from its octets as a client reads them, is so.
#![tactic(auto)]

pub mod laws;
