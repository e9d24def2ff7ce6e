//! A standalone updater, run as tests: with a node in memory, over images whose reads fail, and with packets that aren't for it.
#![tactic(auto)]

#[cfg(test)]
mod pair;
#[cfg(test)]
mod tests;
