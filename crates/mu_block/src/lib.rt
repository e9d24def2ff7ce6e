//! The block of a BLOB transfer that comes, in memory: its octets, and which of its chunks are there.
#![tactic(auto)]

mod buffer;

pub use buffer::BlockBuffer;
