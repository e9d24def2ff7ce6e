//! An input line by line.
#![tactic(auto)]

mod reader;

pub use reader::{LineReader, Next, ReadStop};
