//! The messages of all three models, the datagrams that carry them, and their shown lines.
#![tactic(auto)]

mod datagrams;
pub mod laws;
mod message;
mod ranges;
mod reading;
mod showing;
mod writing;

pub use datagrams::{datagram, undatagram};
pub use message::Message;
pub use ranges::in_range;
pub use reading::{Part, part_of, read};
pub use showing::{show, show_octets};
pub use writing::{canonical, write};
