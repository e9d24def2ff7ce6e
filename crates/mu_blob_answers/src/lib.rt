//! What a BLOB Transfer Server is asked, read from a message, and what it answers, written into packets.
#![tactic(auto)]

mod answers;
mod messages;
mod requests;
mod sending;
mod writing;

pub use answers::{BlobAnswer, block_reply, information_reply, partial_reply, transfer_reply};
pub use messages::{BlobReply, BlobRequest};
pub use requests::request_of;
pub use sending::send;
pub use writing::octets_of;
