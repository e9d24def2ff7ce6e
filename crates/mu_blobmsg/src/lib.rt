//! The messages of the BLOB Transfer model, read from a payload and written into one.
#![tactic(auto)]

pub mod laws;
mod message;
mod ranges;
mod reading;
mod writing;

pub use message::BlobMsg;
pub use ranges::in_range;
pub use reading::read;
pub use writing::write;
