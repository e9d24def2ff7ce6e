//! What a client sends, as octets, and what it takes of the messages that it receives (MshMBT, BLOB Transfer Client; MshDFU,
//! Firmware Update Client).
#![tactic(auto)]

mod client;
mod reading;
mod sending;
mod writing;

pub use client::{on_blob, on_time, on_update};
pub use reading::{blob_heard, takes_blob, takes_update, update_heard};
pub use sending::send_all;
pub use writing::octets_of;
