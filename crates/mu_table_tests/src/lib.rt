//! Numbers of blocks and chunks, the block that comes, and the rows of an update server with its requests and replies, as tests.
#![tactic(auto)]

#[cfg(test)]
mod arith_tests;
#[cfg(test)]
mod block_tests;
#[cfg(test)]
mod update_answers_tests;
#[cfg(test)]
mod update_rows_tests;
