//! The command `format` over devices in memory: what it makes, what it refuses, and each device failing.
#![tactic(auto)]

#[cfg(test)]
mod format_tests;
