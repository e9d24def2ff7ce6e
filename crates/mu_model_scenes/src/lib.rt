//! The octets that worked scenes speak of, each said once: below the crates with worked rows, and with no function of its own.
#![tactic(auto)]
