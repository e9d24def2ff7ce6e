//! Worked rows: what octets say by the message grammar, and where they are refused, from the published tables and this profile's text.
#![tactic(auto)]

pub mod rows;
