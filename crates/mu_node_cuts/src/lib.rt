//! A node over a flash in memory whose power is cut: what it answers to update messages, and what a boot finds.
#![tactic(auto)]

#[cfg(test)]
mod update_tests;
