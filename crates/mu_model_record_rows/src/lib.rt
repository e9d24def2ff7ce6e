//! Worked rows: records, places and operations of a flash, and what cuts leave, from this profile's text.
#![tactic(auto)]

pub mod rows;
