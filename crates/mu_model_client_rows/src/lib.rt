//! Worked rows: what a client sends and concludes, from this profile's text, octet by octet.
#![tactic(auto)]

pub mod rows;
