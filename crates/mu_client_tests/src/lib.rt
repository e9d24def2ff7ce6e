//! The clients, run as tests: what they send, what they send again, whom they drop and why, and 128 receivers at once.
#![tactic(auto)]

#[cfg(test)]
mod answers;
#[cfg(test)]
mod blob_tests;
#[cfg(test)]
mod drop_tests;
#[cfg(test)]
mod many_tests;
#[cfg(test)]
mod sending;
#[cfg(test)]
mod update_tests;
#[cfg(test)]
mod updating;
