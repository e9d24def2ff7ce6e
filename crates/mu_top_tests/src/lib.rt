//! Scripts, the texts that lines print, and the commands over devices in memory, as tests.
#![tactic(auto)]

#[cfg(test)]
mod lines_tests;
#[cfg(test)]
mod node_tests;
#[cfg(test)]
mod script_tests;
#[cfg(test)]
mod top_tests;
#[cfg(test)]
mod words_tests;
