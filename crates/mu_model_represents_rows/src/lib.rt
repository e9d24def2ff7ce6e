//! Worked rows: which records are a node's or a distributor's, from this profile's text, octet by octet.
#![tactic(auto)]

pub mod rows;
