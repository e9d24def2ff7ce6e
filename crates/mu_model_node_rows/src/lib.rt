//! Worked rows: what a node answers and is left with, from the published tables and this profile's text, octet by octet.
#![tactic(auto)]

pub mod rows;
