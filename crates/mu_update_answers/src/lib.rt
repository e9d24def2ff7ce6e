//! What a Firmware Update Server is asked, read from a message, and what it answers, written into packets.
#![tactic(auto)]

mod reading;
mod sending;
mod writing;

pub use reading::{request_at, request_of};
pub use sending::send;
pub use writing::octets_of;
