//! Worked rows: what a distributor answers, sends and is left with, from this profile's text, octet by octet.
#![tactic(auto)]

pub mod rows;
