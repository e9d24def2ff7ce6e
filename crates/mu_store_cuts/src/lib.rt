//! The calls of a store over flashes in memory: each of their operations cut, read, written or failed, and the flash booted again.
#![tactic(auto)]

#[cfg(test)]
mod boot_tests;
#[cfg(test)]
mod cut_tests;
#[cfg(test)]
mod fill_tests;
#[cfg(test)]
mod made;
#[cfg(test)]
mod worn_tests;
