//! Worked rows: scripts and what they print, from this profile's text.
#![tactic(auto)]

pub mod rows;
