//! Worked rows: what the lines of a script say, what is printed, and images, from this profile's text.
#![tactic(auto)]

pub mod rows;
