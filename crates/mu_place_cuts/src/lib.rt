//! The calls of an owned store over a flash in memory: each of their operations torn, the fault answered again, and the flash booted again.
#![tactic(auto)]

#[cfg(test)]
mod cut_tests;
