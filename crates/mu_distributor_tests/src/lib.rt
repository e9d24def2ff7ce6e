//! A distributor over flashes in memory, as tests: its requests, the octets that answer them, and how many records they write.
#![tactic(auto)]

#[cfg(test)]
mod tests;
